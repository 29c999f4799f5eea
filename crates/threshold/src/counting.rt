// The histogram (document 01: "each filtered value adds one at its eighths divided by 8, rounded
// down").
ghost use Rattle.std.specs.Prelude.{◌≡◌, true, false, length};
ghost use Rattle.answers.specs.Refusals.{Unless};
ghost use Rattle.threshold.specs.Histogram.{Countable};
ghost use Rattle.threshold.specs.Asked.{Added};

use arithmetic::values;

// Whether values can be counted. A test of its own, before the first is counted, is quicker than
// one at each value: its loop takes several at once.
pub(crate) fn countable(values: &[u16]) -> bool
    ensures { Unless (Countable values.now) (result ≡ false) (result ≡ true) }
{
    (1..=1_048_576).contains(&values.len()) && values::at_most(values, 2_040)
}

// The counts of values: an array that starts with a zero in each place, to which each value adds one.
// An array by value and one loop is the form that document 01 names; the lent histogram is filled
// from it afterwards.
pub(crate) fn counts_of(values: &[u16]) -> [u32; 256]
    requires { Countable values.now }
    ensures { Added values.now (length values.now) result }
{
    let mut counts = [0u32; 256];
    for &value in values {
        counts[usize::from(value / 8)] += 1;
    }
    counts
}
