// The memory of a scan (document 02, P1): what it holds between its calls, in memory that the caller
// lends; how it begins, and how it is told that it has.
#![tactic(auto)]

ghost use Rattle.std.specs.Prelude.{◌≡◌, true, false, ◌≤◌, length, drop};
ghost use Rattle.answers.specs.Refusals.{Unless};
ghost use Rattle.answers.specs.Numbers.{told};
ghost use Rattle.memory.specs.Memory.{memory, zeros, Ranges, Begun, StartIs};

use answers::Refusal;
use arithmetic::values;

// How many numbers it has: width, height, how many rows came, and six rows of up to 1,024. All zeros is
// "before a good start".
pub const LENGTH: usize = 6_147;

// A scan begins, of a picture of `height` rows of `width` levels; what was held is dropped. Refused by 1,
// with nothing changed.
pub fn start(held: &mut [u16], width: usize, height: usize) -> Result<(), Refusal>
    ensures { StartIs held.old width height (told result) held.new }
{
    if held.len() < LENGTH || width < 1 || 1_024 < width || height < 1 || 1_024 < height {
        return Err(Refusal::SideOutOfRange);
    }
    reset(held, width, height);
    Ok(())
}

// Writes the sides, that no row came, and zeros for the rows; what lies past them stays.
fn reset(held: &mut [u16], width: usize, height: usize)
    requires { (6_147 ≤ length held.old) × (width ≤ 1_024) × (height ≤ 1_024) }
    ensures { held.new ≡ memory width height 0 (zeros 6_144) (drop 6_147 held.old) }
{
    held[3..6_147].fill(0);
    held[0] = width as u16;
    held[1] = height as u16;
    held[2] = 0;
}

// Whether a good start has begun this memory: it is long enough, its sides are a picture's, and the
// numbers of its rows are in range.
pub fn begun(held: &[u16]) -> bool
    ensures { Unless (Begun held.now) (result ≡ false) (result ≡ true) }
{
    if held.len() < LENGTH {
        return false;
    }
    let width = usize::from(held[0]);
    let height = usize::from(held[1]);
    if width < 1 || 1_024 < width || height < 1 || 1_024 < height {
        return false;
    }
    in_range(&held[3..6_147], width)
}

// Whether the rows have levels, halves and quarters.
fn in_range(rows: &[u16], width: usize) -> bool
    requires { (length rows.now ≡ 6_144) × (width ≤ 1_024) }
    ensures { Unless (Ranges width rows.now) (result ≡ false) (result ≡ true) }
{
    let two = width + width;
    let four = two + two;
    let six = four + two;
    if !values::at_most(&rows[..two], 255) {
        return false;
    }
    if !values::at_most(&rows[two..four], 510) {
        return false;
    }
    values::at_most(&rows[four..six], 1_020)
}
