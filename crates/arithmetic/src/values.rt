// 16-bit numbers: two of them, and several at once. (Of two, std's methods do it, for any type that is ordered; here they
// have a promise in plain numbers, which callers and the edits hold them to.)
ghost use Rattle.std.specs.Prelude.{◌≡◌, true, false, max, min};
ghost use Rattle.arithmetic.specs.Greatest.{Least};
ghost use Rattle.arithmetic.specs.Lists.{AtMost};
ghost use Rattle.answers.specs.Refusals.{Unless};

// The larger of two.
pub fn larger(a: u16, b: u16) -> u16
    ensures { result ≡ max a b }
{
    a.max(b)
}

// The smaller of two.
pub fn smaller(a: u16, b: u16) -> u16
    ensures { result ≡ min a b }
{
    a.min(b)
}

// Whether each of some values is at most `most`. All are looked at, also past one that is not: so the loop
// takes several at once.
pub fn at_most(values: &[u16], most: u16) -> bool
    ensures { Unless (AtMost most values.now) (result ≡ false) (result ≡ true) }
{
    greatest(values) <= most
}

// The greatest of some values, 0 of none: the least number that none of them exceeds.
fn greatest(values: &[u16]) -> u16
    ensures { Least (λ b. AtMost b values.now) result }
{
    let mut most = 0;
    for &value in values {
        most = larger(most, value);
    }
    most
}
