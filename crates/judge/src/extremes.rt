// The extremes (document 01: "The filtered picture is cut into 4×4 tiles of w/4 by h/4 pixels"), from
// the largest piece to the smallest: the picture's sixteen tiles, a tile's rows, a row's values.
ghost use Rattle.std.specs.Prelude.{◌≡◌, min, max};
ghost use mathlib.Core.List.{foldl};
ghost use Rattle.judge.specs.Extremes.{maximum, minimum, bright, dark};
ghost use Rattle.judge.specs.Asked.{Part, part};

use crate::pictures::FilteredPicture;
use units::Eighths;

// The greatest and the least of some values; over tiles the sums of these, M and m.
#[derive(Clone, Copy)]
pub(crate) struct Extremes<T> {
    pub(crate) bright: T,
    pub(crate) dark: T,
}

// M and m of a filtered picture.
pub(crate) fn of_tiles(picture: &FilteredPicture) -> Extremes<Eighths>
    ensures { (result.bright ≡ bright picture.now.width picture.now.height picture.now.filtered.now) × (result.dark ≡ dark picture.now.width picture.now.height picture.now.filtered.now) }
{
    let width = picture.width;
    let columns = width / 4;
    let rows = picture.height / 4;
    let mut bright = 0u64;
    let mut dark = 0u64;
    for tile in 0..16 {
        let start = tile / 4 * rows * width + tile % 4 * columns;
        let ends = part_ends(picture.filtered, width, columns, rows, start);
        bright += u64::from(ends.bright);
        dark += u64::from(ends.dark);
    }
    Extremes {
        bright: Eighths::of(bright),
        dark: Eighths::of(dark),
    }
}

// The greatest and the least value of a tile: the part that starts at `start` and has `rows` rows of
// `columns` values.
fn part_ends(
    filtered: &[u16],
    width: usize,
    columns: usize,
    rows: usize,
    start: usize,
) -> Extremes<u16>
    requires { Part width columns rows start filtered.now }
    ensures { (result.bright ≡ maximum (part width columns rows start filtered.now)) × (result.dark ≡ minimum (part width columns rows start filtered.now)) }
{
    let mut bright = 0u16;
    let mut dark = u16::MAX;
    for row in 0..rows {
        let at = start + row * width;
        // a row by itself, so that it need not wait for the one before it
        let ends = row_ends(&filtered[at..at + columns]);
        bright = bright.max(ends.bright);
        dark = dark.min(ends.dark);
    }
    Extremes { bright, dark }
}

// The greatest and the least of a row's values.
fn row_ends(row: &[u16]) -> Extremes<u16>
    ensures { (result.bright ≡ foldl max 0 row.now) × (result.dark ≡ foldl min 65_535 row.now) }
{
    let mut bright = 0u16;
    let mut dark = u16::MAX;
    for &value in row {
        bright = bright.max(value);
        dark = dark.min(value);
    }
    Extremes { bright, dark }
}
