// The median of a block's levels, read off as it is drawn. The middle one of nine is a level with at most
// four below it and at most four above it:
//
//     11 10 38
//      7  6 20     11 has four below it, 10 7 6 8, and four above it, 38 20 28 19.
//      8 28 19
//
// So nothing is sorted: for each level those of the others that lie below it and above it are counted.
// Equal levels lie neither below nor above each other. Several of them may be the middle one, and since
// they are equal it does not matter which is found. That it is the middle one of the sorted levels is
// `rank_is` in proofs/Ranks.antt, for any number of levels and any rank.
ghost use Rattle.std.specs.Prelude.{◌≡◌, ◌-◌, ◌/◌, ◌≤◌, ◌<◌, length, get_or, take};
ghost use Rattle.arithmetic.specs.Lists.{AtMost};
ghost use Rattle.answers.specs.Refusals.{Unless};
ghost use Rattle.filter.specs.Median.{twice_median};
ghost use Rattle.filter.specs.Counting.{one_below, SidesAre};
ghost use Rattle.filter.specs.Asked.{Count};

// Twice the median of some levels: the lower and the upper middle level, added; of an odd number they are
// one. The search begins with the first level: where none of the others is found, it is the one.
pub(crate) fn twice(levels: &[u16]) -> u16
    requires { Count (length levels.now) × AtMost 1_020 levels.now }
    ensures { result ≡ twice_median levels.now }
{
    let ranks = middle_ranks(levels.len());
    let mut lower = levels[0];
    let mut upper = levels[0];
    for k in 1..levels.len() {
        let v = levels[k];
        let sides = others(levels, k, v);
        lower = found(sides, ranks.low, ranks.high, v, lower);
        upper = found(sides, ranks.high, ranks.low, v, upper);
    }
    lower + upper
}

// The middle ranks of n levels, counted from 0; of an odd number they are one. The level of rank r has at
// most r below it and at most n − 1 − r above it, and `low` and `high` add to n − 1: so the lower middle
// level has at most `low` below it and at most `high` above it, and the upper one the other way round.
#[derive(Drop)]
struct Ranks {
    low: u16,
    high: u16,
}

// "A pixel so has 1, 2, 3, 4, 6 or 9 levels in its block." A `match` on the count is the form that document 01 names.
fn middle_ranks(n: usize) -> Ranks
    requires { Count n }
    ensures { (result.low ≡ (n - 1) / 2) × (result.high ≡ n / 2) }
{
    match n {
        1 => Ranks { low: 0, high: 0 },
        2 => Ranks { low: 0, high: 1 },
        3 => Ranks { low: 1, high: 1 },
        4 => Ranks { low: 1, high: 2 },
        6 => Ranks { low: 2, high: 3 },
        _ => Ranks { low: 4, high: 4 },
    }
}

// v, if at most `low` levels lie below it and at most `high` above it; else what was found before.
fn found(sides: Sides, low: u16, high: u16, v: u16, before: u16) -> u16
    ensures { Unless ((sides.below ≤ low) × (sides.above ≤ high)) (result ≡ before) (result ≡ v) }
{
    if sides.below <= low && sides.above <= high {
        return v;
    }
    before
}

// How many levels lie below a level, and how many above it.
#[derive(Clone, Copy)]
struct Sides {
    below: u16,
    above: u16,
}

// Those of v, which stands at place k. The levels before it and those after it are counted; v itself lies
// neither below nor above v.
fn others(levels: &[u16], k: usize, v: u16) -> Sides
    requires { (k < length levels.now) × (length levels.now ≤ 9) × AtMost 1_020 levels.now × (v ≡ get_or levels.now k 0) }
    ensures { SidesAre v levels.now result.below result.above }
{
    let before = count_sides(levels, 0, k, v, Sides { below: 0, above: 0 });
    count_sides(levels, k + 1, levels.len(), v, before)
}

// Those of v among the first `end` levels, where `sides` has those among the first `from`. The places are
// counted: a loop over a part of the slice is not unrolled.
fn count_sides(levels: &[u16], from: usize, end: usize, v: u16, sides: Sides) -> Sides
    requires from_le_end { (from ≤ end) × (end ≤ length levels.now) × (end ≤ 9) × AtMost 1_020 levels.now × (v ≤ 1_020) }
    requires sides_are { SidesAre v (take from levels.now) sides.below sides.above }
    ensures { SidesAre v (take end levels.now) result.below result.above }
{
    let mut below = sides.below;
    let mut above = sides.above;
    for k in from..end {
        below += one_below(levels[k], v);
        above += one_below(v, levels[k]);
    }
    Sides { below, above }
}

// 1 where a lies below b, else 0. They are compared as signed numbers: for those the processor has an
// instruction, and a level is far below 32,768.
fn one_below(a: u16, b: u16) -> u16
    requires { (a ≤ 1_020) × (b ≤ 1_020) }
    ensures { result ≡ one_below a b }
{
    u16::from((a as i16) < (b as i16))
}
