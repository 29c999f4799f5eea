// What the levels of a picture come to (document 01, "The program").
ghost use Rattle.gongspindle.specs.Line.{SquarePicture, LineIs};

use crate::space;
use judge::Unmeasured;
use threshold::Resting;

// What a picture's line says, besides its sides.
#[derive(Clone, Copy)]
pub(crate) struct Line {
    pub(crate) verdict: Result<u64, Unmeasured>,
    pub(crate) threshold: Resting,
}

// A picture is measured, what it was filtered to is counted, and the counts have a threshold: also
// where the picture is discarded.
pub(crate) fn line_of(levels: &[u8], side: usize) -> Line
    requires { SquarePicture side levels.now }
    ensures { LineIs levels.now side result }
{
    let n = levels.len();
    // as many values as the larger picture has
    let mut output: [u16; 4_096] = space(0);
    let mut work: [u16; 4_096] = space(0);
    let mut histogram = [0u32; 256];
    let verdict = judge::measure(levels, side, side, &mut output, &mut work);
    // neither is refused: the histogram has 256 places, and what a picture was filtered to can be counted
    threshold::count(&output[..n], &mut histogram).unwrap();
    let threshold = threshold::two_means(&histogram).unwrap();
    Line { verdict, threshold }
}
