// The weights of a remainder, and the sum over the 4×4 levels around a place (document 01: "A sample
// is the sum over 4×4 original levels of row weight times column weight").
ghost use Rattle.std.specs.Prelude.{◌≡◌, ◌+◌, ◌<◌, ◌≤◌, ◌^◌, length};
ghost use Rattle.std.proofs.Math.IntN.{sub_ℕ};
ghost use Rattle.sample.specs.Cubic.{weight as weight_of, sample_of};
ghost use Rattle.sample.specs.Asked.{Around, row_sum};

use crate::coordinate::Coordinate;

// The sum over the 4×4 levels around a column and a row: each row's sum, times the weight of the row.
// The compiler unrolls both loops, and computes each of the eight weights once.
pub(crate) fn around(levels: &[u8], width: usize, column: Coordinate, row: Coordinate) -> i64
    requires { Around levels.now width column.pixel row.pixel }
    ensures { result ≡ sample_of levels.now width column.pixel row.pixel column.remainder row.remainder }
{
    let first = (row.pixel - 1) * width + (column.pixel - 1);
    let mut sum = 0i64;
    for r in 0..4 {
        sum += weight(row, r) * row_sum(levels, first + r * width, column);
    }
    sum
}

// The sum of four levels of a row, from `at` on, each times the weight of its column.
fn row_sum(levels: &[u8], at: usize, column: Coordinate) -> i64
    requires { at + 4 ≤ length levels.now }
    ensures { result ≡ row_sum levels.now at column.remainder }
{
    let mut sum = 0i64;
    for t in 0..4 {
        sum += weight(column, t) * i64::from(levels[at + t]);
    }
    sum
}

// The weight of a coordinate's remainder k on pixel i−1+t, in 1/8,192: the document's four formulas, each
// as what it adds less what it takes away.
fn weight(coordinate: Coordinate, t: usize) -> i64
    requires { t < 4 }
    ensures { result ≡ weight_of coordinate.remainder t }
{
    let k = coordinate.remainder;
    let square = k * k;
    let cube = square * k;
    match t {
        0 => difference(32 * square, 256 * k + cube),
        1 => difference(8_192 + 3 * cube, 80 * square),
        2 => difference(256 * k + 64 * square, 3 * cube),
        _ => difference(cube, 16 * square),
    }
}

// What is added less what is taken away.
fn difference(added: u64, taken: u64) -> i64
    requires { (added < 2 ^ 63) × (taken < 2 ^ 63) }
    ensures { result ≡ sub_ℕ added taken }
{
    (added as i64) - (taken as i64)
}
