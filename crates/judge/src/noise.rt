// The noise (document 01: "D = N·(sum of d²) − (sum of d)²"; document 02, P3: "the sum for D leaves out
// the three outermost rows and columns on each side"). d is a difference of two terms, 8 times the
// level and the filtered value, so that its sum is a difference of two sums, and its square that of
// how far the two are apart: whole numbers from 0 are enough.
ghost use Rattle.std.specs.Prelude.{◌≡◌, ◌*◌, ◌≤◌, length, pos};
ghost use Rattle.judge.specs.Noise.{inner_pixels, spread_of};
ghost use Rattle.judge.specs.Asked.{SamePixels, light, flat, Sums};

use crate::pictures::FilteredPicture;

// The sums over some pixels: of d², of 8 times the levels, and of the filtered values.
#[derive(Clone, Copy)]
struct ThreeSums {
    squares: u32,
    lights: u32,
    flats: u32,
}

// N, the number of a picture's pixels that count: all but three rows and columns on each side.
pub(crate) fn inner_pixels(picture: &FilteredPicture) -> u64
    ensures { result ≡ inner_pixels picture.now.width picture.now.height }
{
    ((picture.width - 6) * (picture.height - 6)) as u64
}

// D of a picture and what it was filtered to.
pub(crate) fn spread(picture: &FilteredPicture) -> u64
    ensures { (pos result ≡ spread_of picture.now.width picture.now.height picture.now.levels.now picture.now.filtered.now) × (result ≤ 4_611_686_018_427_387_904) }
{
    let columns = picture.width - 6;
    let rows = picture.height - 6;
    let mut squares = 0u64;
    let mut lights = 0u64;
    let mut flats = 0u64;
    for row in 0..rows {
        let at = (row + 3) * picture.width + 3; // the row's first pixel that counts
        let end = at + columns;
        let added = row_sums(&picture.levels[at..end], &picture.filtered[at..end]);
        squares += u64::from(added.squares);
        lights += u64::from(added.lights);
        flats += u64::from(added.flats);
    }
    let away = lights.abs_diff(flats); // how far the sum of d is from 0
    inner_pixels(picture) * squares - away * away
}

// The sums over a row's pixels that count, which have room in 32 bits: so the compiler takes several
// pixels at once.
fn row_sums(levels: &[u8], filtered: &[u16]) -> ThreeSums
    requires { SamePixels levels.now filtered.now }
    ensures { Sums (light levels.now) (flat filtered.now) (length filtered.now) result.squares result.lights result.flats }
{
    let mut squares = 0u32;
    let mut lights = 0u32;
    let mut flats = 0u32;
    for (&level, &flat) in levels.iter().zip(filtered) {
        let light = 8 * u16::from(level);
        let gap = u32::from(light.abs_diff(flat));
        squares += gap * gap;
        lights += u32::from(light);
        flats += u32::from(flat);
    }
    ThreeSums {
        squares,
        lights,
        flats,
    }
}
