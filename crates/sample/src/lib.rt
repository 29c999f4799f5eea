// Cubic samples (document 01): coordinate.rt takes a place apart and says whether it has a sample, cubic.rt
// has the weights of a remainder and the sum over the 4×4 levels around a place.
#![tactic(auto)]

ghost use Rattle.sample.specs.Cubic.{SampleIs, sampled_of};

use answers::Refusal;
use coordinate::Coordinate;
use units::Sixteenths;

mod coordinate;
mod cubic;

// The sample of a picture, in 1/67,108,864 levels: of `height` rows of `width` levels, at the place x, y,
// 16 times the column and 16 times the row, and the sixteenths past them. Refused by 1 and 2, and by 13
// unless the column has one before it and two after it, and the row likewise.
pub fn sample(
    levels: &[u8],
    width: usize,
    height: usize,
    x: Sixteenths,
    y: Sixteenths,
) -> Result<i64, Refusal>
    ensures { SampleIs levels.now width height x y (sampled_of result) }
{
    picture::shape(levels.len(), width, height)?;
    let column = Coordinate::of(x);
    let row = Coordinate::of(y);
    if !column.surrounded(width) || !row.surrounded(height) {
        return Err(Refusal::PlaceOutside);
    }
    Ok(cubic::around(levels, width, column, row))
}
