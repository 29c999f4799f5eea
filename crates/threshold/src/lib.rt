// The histogram of a filtered picture, and the threshold between its dark and its bright levels
// (document 01, "Two means"): counting.rt fills the histogram, ends.rt has the levels present and
// the start, means.rt the rounds until the threshold rests.
#![tactic(auto)]

ghost use Rattle.std.specs.Prelude.{◌≡◌};
ghost use Rattle.answers.specs.Numbers.{told};
ghost use Rattle.threshold.specs.Histogram.{tally, CountIs};
ghost use Rattle.threshold.specs.TwoMeans.{TwoMeansIs, threshold_of};

use answers::Refusal;
use arithmetic::Fraction;
use means::Summed;

mod counting;
mod ends;
mod means;

// A threshold that rests: the rounds until it does, and its value.
#[derive(Clone, Copy, Debug, PartialEq, Eq)]
pub struct Resting {
    pub rounds: u64,
    pub value: Fraction,
}

// The zeros that come back where no threshold is found.
pub const NO_THRESHOLD: Resting = Resting {
    rounds: 0,
    value: Fraction {
        numerator: 0,
        denominator: 0,
    },
};

// Counts filtered values, in eighths of a level, by their whole levels: place v of the histogram
// receives how many lie from v up to, not at, v + 1. What the histogram held before is overwritten.
// Refused, with nothing written, by 10 unless it has 256 places, and by 15 unless there are 1 to
// 1,048,576 values and none is above 2,040.
pub fn count(values: &[u16], histogram: &mut [u32]) -> Result<(), Refusal>
    ensures { CountIs values.now histogram.old (tally (told result) histogram.new) }
{
    if histogram.len() != 256 {
        return Err(Refusal::WrongHistogram);
    }
    if !counting::countable(values) {
        return Err(Refusal::InputOutOfRange);
    }
    let counts = counting::counts_of(values);
    histogram.copy_from_slice(&counts);
    Ok(())
}

// The threshold between the dark and the bright levels of a histogram: from 128, or the nearest end
// of the levels present, half the sum of the mean of all levels up to it and the mean of all levels
// from it on, again and again until it rests. Refused by 10 unless the histogram has 256 places, by
// 11 where its counts are all 0, by 12 where its total is above 1,048,576.
pub fn two_means(histogram: &[u32]) -> Result<Resting, Refusal>
    ensures { TwoMeansIs histogram.now (threshold_of result) }
{
    if histogram.len() != 256 {
        return Err(Refusal::WrongHistogram);
    }
    let summed = Summed::<257>::of(histogram);
    let total = summed.total();
    if total == 0 {
        return Err(Refusal::EmptyHistogram);
    }
    if 1_048_576 < total {
        return Err(Refusal::LargeTotal);
    }
    Ok(summed.settle(128))
}
