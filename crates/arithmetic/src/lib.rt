// What several crates compute with: numbers from their bytes (`bytes`), the larger and the smaller of two
// (`values`, `sizes`) and whether values are small (`values`), fractions, and, in specs/ and proofs/, the
// greatest of a kind and how halving finds it, the least of a kind, signed numbers beside natural ones and
// how far they go, sums, lists, and tests that are computed. Laws are shared from here; the few functions
// are total.
#![tactic(auto)]

pub mod bytes;
pub mod sizes;
pub mod values;

ghost use Rattle.std.specs.Prelude.{◌≡◌};
ghost use Rattle.arithmetic.specs.Signed.{nat_of};

// A fraction: a pair of whole numbers, not reduced.
#[derive(Clone, Copy, Debug, PartialEq, Eq)]
pub struct Fraction {
    pub numerator: u64,
    pub denominator: u64,
}

// A signed number as a natural one: 0 where it is negative.
pub fn natural(z: i64) -> u64
    ensures { result ≡ nat_of z }
{
    u64::try_from(z).unwrap_or(0)
}
