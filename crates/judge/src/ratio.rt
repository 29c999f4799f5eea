// The ratio (document 01: "q, the greatest whole number from 0 with (q+138)²·256·D ≤ 10,000·(M−m)²·N²,
// and 0 where there is none"). Both sides outgrow 64 bits, so they are compared in 128.
ghost use Rattle.std.specs.Prelude.{◌≡◌, ◌+◌, ◌*◌, ◌^◌, ◌<◌, ◌≤◌, leb};
ghost use Rattle.arithmetic.specs.Greatest.{Greatest, Between};
ghost use Rattle.judge.specs.Judge.{RatioIs};

// The ratio in hundredths, rounded down, from N, M − m and D.
pub(crate) fn ratio(count: u64, span: u64, spread: u64) -> u64
    requires { (count ≤ 1_048_576) × (span ≤ 32_640) × (1 ≤ spread) × (spread ≤ 4_611_686_018_427_387_904) }
    ensures { RatioIs count span spread result }
{
    // the right side is this product's square
    let product = 100 * span * count;
    let left = u128::from(spread) * 256;
    let right = square(product);
    if !reaches(left, right, 0) {
        return 0;
    }
    // the root of 256·D lies from 16·p to below 32·p, so that q + 138 lies from a 32nd of the product
    // over p to a 16th
    let p = power_below_root(spread);
    let lo = (product / (32 * p)).saturating_sub(138);
    let hi = product / (16 * p) - 137;
    halve(left, right, lo, hi)
}

// A power of two, the greatest whose square is at most d.
fn power_below_root(d: u64) -> u64
    requires { (1 ≤ d) × (d ≤ 4_611_686_018_427_387_904) }
    ensures { (1 ≤ result) × (result ≤ 2_147_483_648) × (result * result ≤ d) × (d < 4 * (result * result)) }
{
    1 << (d.ilog2() / 2)
}

// The greatest q with (q+138)²·left at most right, which lies from lo to below hi (document 01:
// "recursive halving of an interval whose width falls; the ratio's q likewise").
fn halve(left: u128, right: u128, lo: u64, hi: u64) -> u64
    requires { Between (λ q. (q + 138) * (q + 138) * left ≤ right) lo hi × (hi ≤ 2 ^ 42) × (right ≤ 2 ^ 84) }
    ensures { Greatest (λ q. (q + 138) * (q + 138) * left ≤ right) result }
{
    if hi - lo <= 1 {
        return lo;
    }
    let mid = lo + (hi - lo) / 2;
    if reaches(left, right, mid) {
        halve(left, right, mid, hi)
    } else {
        halve(left, right, lo, mid)
    }
}

// Whether (q+138)²·left is at most right. A product that outgrows 128 bits stops at their end, which is
// above the right side too.
fn reaches(left: u128, right: u128, q: u64) -> bool
    requires { (q ≤ 2 ^ 42) × (right ≤ 2 ^ 84) }
    ensures { result ≡ leb ((q + 138) * (q + 138) * left) right }
{
    square(q + 138).saturating_mul(left) <= right
}

// A number's square, which has room in 128 bits.
fn square(n: u64) -> u128
    ensures { result ≡ n * n }
{
    u128::from(n) * u128::from(n)
}
