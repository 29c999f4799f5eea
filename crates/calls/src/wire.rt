// The numbers of a request: eight bytes each, the low one first, signed ones in two's complement.
ghost use Rattle.std.specs.Prelude.{◌≡◌, ◌+◌, ◌*◌, ◌≤◌, length};
ghost use Rattle.std.specs.Int.{w64};
ghost use Rattle.std.proofs.Common.{to_z};
ghost use Rattle.arithmetic.specs.Bytes.{eight_bytes};
ghost use Rattle.units.specs.Units.{sixteenths};
ghost use Rattle.calls.specs.Space.{argument};

use arithmetic::bytes;
use units::Sixteenths;

// The eight bytes from `at` on. (`try_into` would give a `Result` that cannot fail.)
fn eight(b: &[u8], at: usize) -> [u8; 8]
    requires { at + 8 ≤ length b.now }
    ensures { eight_bytes result 0 ≡ eight_bytes b.now at }
{
    [
        b[at],
        b[at + 1],
        b[at + 2],
        b[at + 3],
        b[at + 4],
        b[at + 5],
        b[at + 6],
        b[at + 7],
    ]
}

// The k-th number of some, counted from 0.
pub(crate) fn number(b: &[u8], k: usize) -> u64
    requires { 8 * k + 8 ≤ length b.now }
    ensures { result ≡ argument b.now k }
{
    bytes::number(eight(b, 8 * k))
}

// A signed one, which is always a place or a factor: sixteenths of a pixel.
pub(crate) fn signed(b: &[u8], k: usize) -> Sixteenths
    requires { 8 * k + 8 ≤ length b.now }
    ensures { result ≡ sixteenths (to_z w64 (argument b.now k)) }
{
    Sixteenths::of(bytes::signed(eight(b, 8 * k)))
}
