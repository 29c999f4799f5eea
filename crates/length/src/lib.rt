// The length of a sharpness (document 01, "Length"): the sharpness factor over the square root of 2.
#![tactic(auto)]

ghost use Rattle.std.specs.Prelude.{◌≡◌, ◌*◌, ◌≤◌};
ghost use Rattle.arithmetic.specs.Greatest.{Greatest, Between};
ghost use Rattle.length.specs.Length.{LengthIs, sharpness_of};

use answers::Refusal;
use units::{Picometres, Sixteenths};

// The length of a sharpness factor in a picture whose pixels have the size `pixel`, rounded down.
// Refused by 14 where one of the two is out of range.
pub fn length(factor: Sixteenths, pixel: Picometres) -> Result<Picometres, Refusal>
    ensures { LengthIs factor pixel (sharpness_of result) }
{
    let s = arithmetic::natural(factor.amount());
    let p = pixel.amount();
    if s < 1 || 16_384 < s || p < 1 || 100_000 < p {
        return Err(Refusal::FactorOrPixelOutOfRange);
    }
    // 16 times the square root of 2 lies between 22 and 23, so the length lies from a 23rd of the
    // product to a 22nd.
    let product = p * s;
    let q = halve(product * product, product / 23, product / 22 + 1);
    Ok(Picometres::of(q))
}

// The greatest q with 512·q² at most t, which lies from lo to below hi: recursive halving of that
// interval, whose width falls. A recursion is the form that document 01 names. Up to 2^27, 512·q² has
// room in 64 bits.
fn halve(t: u64, lo: u64, hi: u64) -> u64
    requires { Between (λ q. 512 * (q * q) ≤ t) lo hi × (hi ≤ 134_217_728) }
    ensures { Greatest (λ q. 512 * (q * q) ≤ t) result }
{
    if hi - lo <= 1 {
        return lo;
    }
    let mid = lo + (hi - lo) / 2;
    if 512 * (mid * mid) <= t {
        halve(t, mid, hi)
    } else {
        halve(t, lo, mid)
    }
}
