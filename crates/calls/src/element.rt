// The elements of the slices and buffers that a request lends, but for levels: each has some bytes, the low
// one first.
ghost use Rattle.std.specs.Prelude.{◌≡◌, ℕ, ◌*◌, ◌%◌, ◌≤◌, List, length, replicate, slice_index, EachIndex};
ghost use Rattle.std.proofs.Common.{arith};
ghost use Rattle.arithmetic.specs.Bytes.{two_bytes, four_bytes};

use arithmetic::bytes;

// What a slice or a buffer of them needs of its elements.
pub(crate) trait Element: Copy + Drop + Into<u64> {
    ghost BYTES: { ℕ };

    ghost Joined: { List ℕ → List Self → Type 0 };

    ghost low_bits: { ℕ → Self };

    // How many bytes an element has.
    const BYTES: usize;

    // So many bytes to each of some elements.
    fn join(b: &[u8], space: &mut [Self])
        requires { BYTES * length space.old ≤ length b.now }
        ensures { Joined b.now space.new };

    // The low bits of a number, as many as an element has, in each of some elements.
    fn fill(space: &mut [Self], n: u64)
        ensures { space.new ≡ replicate (length space.old) (low_bits n) };

    ghost few: { BYTES ≤ 8 };
}

// A value: two bytes.
impl Element for u16 {
    ghost BYTES = { 2 };

    ghost Joined = { λ b xs. EachIndex xs (λ k. slice_index xs k ≡ two_bytes b (2 * k)) };

    ghost low_bits = { λ n. n % 65_536 };

    const BYTES: usize = 2;

    fn join(b: &[u8], space: &mut [u16]) {
        for i in 0..space.len() {
            space[i] = bytes::pair(b[2 * i], b[2 * i + 1]);
        }
    }

    fn fill(space: &mut [u16], n: u64) {
        space.fill((n % 65_536) as u16);
    }

    ghost few = { omega arith };
}

// A count: four bytes.
impl Element for u32 {
    ghost BYTES = { 4 };

    ghost Joined = { λ b xs. EachIndex xs (λ k. slice_index xs k ≡ four_bytes b (4 * k)) };

    ghost low_bits = { λ n. n % 4_294_967_296 };

    const BYTES: usize = 4;

    fn join(b: &[u8], space: &mut [u32]) {
        for i in 0..space.len() {
            let j = 4 * i;
            space[i] = u32::from_le_bytes([b[j], b[j + 1], b[j + 2], b[j + 3]]);
        }
    }

    fn fill(space: &mut [u32], n: u64) {
        space.fill((n % 4_294_967_296) as u32);
    }

    ghost few = { omega arith };
}
