// The rounds until the threshold rests (document 01: "One round replaces T by half the sum of the
// mean of all levels ≤ T and the mean of all levels ≥ T").
ghost use Rattle.std.specs.Prelude.{◌≡◌, ◌+◌, ◌<◌, ◌≤◌, length};
ghost use Rattle.threshold.specs.Histogram.{total};
ghost use Rattle.threshold.specs.TwoMeans.{round as round_of, Within, Settled};
ghost use Rattle.threshold.specs.Asked.{Tables, Small};

use crate::{Resting, ends};
use arithmetic::Fraction;

// A histogram summed up: for each level and for the one past the last, P places in all, how many values lie
// below it, and the sum of their levels. With them a round adds nothing up. (Two arrays, since the law over
// them, `Tables`, is of two lists, of any number of levels.)
#[derive(Drop)]
pub(crate) struct Summed<'a, const P: usize> {
    histogram: &'a [u32],
    below: [u64; P],
    sums: [u64; P],
    ghost levels: { length histogram.now + 1 ≡ P },
    ghost right: { Tables histogram.now below sums },
}

impl<'a, const P: usize> Summed<'a, P> {
    pub(crate) fn of(histogram: &'a [u32]) -> Summed<'a, P>
        requires { (length histogram.now + 1 ≡ P) × (length histogram.now ≤ 2_048) }
        ensures { result.histogram.now ≡ histogram.now }
    {
        let mut summed = Summed {
            histogram,
            below: [0; P],
            sums: [0; P],
        };
        let mut number = 0u64;
        let mut sum = 0u64;
        for (v, &count) in histogram.iter().enumerate() {
            let count = u64::from(count);
            number += count;
            sum += v as u64 * count;
            summed.below[v + 1] = number;
            summed.sums[v + 1] = sum;
        }
        summed
    }

    // How many values there are.
    pub(crate) fn total(&self) -> u64
        ensures { result ≡ total self.now.histogram.now }
    {
        self.below[self.histogram.len()]
    }

    // One round from t. The levels up to t are those below the next whole number above t; the levels
    // from t on are those that are not below t, rounded up.
    #[tactic(auto, using(crate::proofs::Tables::whole_last, crate::proofs::Tables::rounded_last))]
    fn round(&self, t: Fraction) -> Fraction
        requires small { Small self.now.histogram.now }
        requires within { (0 < total self.now.histogram.now) × Within self.now.histogram.now t }
        ensures { result ≡ round_of self.now.histogram.now t }
    {
        let end = self.histogram.len();
        let up_to = (t.numerator / t.denominator) as usize + 1;
        let from = t.numerator.div_ceil(t.denominator) as usize;
        let low_sum = self.sums[up_to];
        let low_number = self.below[up_to];
        let high_sum = self.sums[end] - self.sums[from];
        let high_number = self.below[end] - self.below[from];
        let numerator = low_sum * high_number + high_sum * low_number;
        let denominator = 2 * low_number * high_number;
        Fraction {
            numerator,
            denominator,
        }
    }

    // Rounds from the start until one gives back what it was given. Nothing counts them down: that they
    // end is proved. After the first round equal thresholds are equal pairs (`same_pair`), so no product of
    // two pairs, which might have 90 bits, is needed. The start, v/1, is written over the first round's
    // denominator, so that it too is compared as a pair.
    pub(crate) fn settle(&self, usual: usize) -> Resting
        requires small { Small self.now.histogram.now }
        requires some { 0 < total self.now.histogram.now }
        ensures { Settled usual self.now.histogram.now result.rounds result.value }
    {
        let first = ends::start(self.histogram, usual) as u64;
        let start = Fraction {
            numerator: first,
            denominator: 1,
        };
        let mut next = self.round(start);
        let mut t = Fraction {
            numerator: first * next.denominator,
            denominator: next.denominator,
        };
        let mut rounds = 0u64;
        while t != next {
            t = next;
            next = self.round(t);
            rounds += 1;
        }
        Resting {
            rounds,
            value: next,
        }
    }
}
