// What every call on a picture looks at first (document 01: "A picture has width w and height h, each
// 1 to 1,024, and w·h levels of 8 bits, row by row").
#![tactic(auto)]

ghost use Rattle.std.specs.Prelude.{◌≡◌};
ghost use Rattle.answers.specs.Numbers.{told};
ghost use Rattle.picture.specs.Picture.{Shaped};

use answers::Refusal;

// Whether a picture's sides and how many levels are lent for it are as they must be. Refused by 1 and 2.
pub fn shape(levels: usize, width: usize, height: usize) -> Result<(), Refusal>
    ensures { Shaped levels width height (λ n. told result ≡ n) (told result ≡ 0) }
{
    let side = 1..=1_024;
    if !side.contains(&width) || !side.contains(&height) {
        return Err(Refusal::SideOutOfRange);
    }
    if levels != width * height {
        return Err(Refusal::WrongLevels);
    }
    Ok(())
}
