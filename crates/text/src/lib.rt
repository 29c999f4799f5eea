// Numbers as text: their decimal digits, put into a block of bytes that a program then writes. (A block and a place in it, and no
// struct of the two: what is promised is every byte of the block, and where the text ends.)
#![tactic(auto)]

ghost use Rattle.std.specs.Prelude.{◌+◌, ◌≤◌, length};
ghost use Rattle.text.specs.Text.{Spelled, SpelledSigned, block as block_of, PutIs};
ghost use Rattle.text.specs.Inside.{Digits, WithSign};

// Puts a number and the byte `after` into the block, from `at` on; where they end. Where fewer than 22
// bytes are left, nothing is put and `at` comes back.
pub fn number(block: &mut [u8], at: usize, n: u64, after: u8) -> usize
    ensures { PutIs (Spelled n) block.old at after (block_of result block.new) }
{
    put(block, at, false, n, after)
}

// The same of a signed number, with a minus sign before a negative one.
pub fn signed(block: &mut [u8], at: usize, v: i64, after: u8) -> usize
    ensures { PutIs (SpelledSigned v) block.old at after (block_of result block.new) }
{
    put(block, at, v < 0, v.unsigned_abs(), after)
}

// Puts a number, after a minus sign where it is how far a negative one is below 0, and the byte `after`.
fn put(block: &mut [u8], at: usize, negative: bool, n: u64, after: u8) -> usize
    ensures { PutIs (WithSign negative n) block.old at after (block_of result block.new) }
{
    if block.len() < 22 || block.len() - 22 < at {
        return at;
    }
    let to = sign_and_digits(block, at, negative, n);
    block[to] = after;
    to + 1
}

// A number's digits from `at` on, and the sign of a negative one before them; where they end.
fn sign_and_digits(block: &mut [u8], at: usize, negative: bool, n: u64) -> usize
    requires { at + 21 ≤ length block.old }
    ensures { Digits (WithSign negative n) 21 block.old at (block_of result block.new) }
{
    if negative {
        block[at] = b'-';
        return digits(block, at + 1, n);
    }
    digits(block, at, n)
}

// A number's digits from `at` on; where they end. One digit, which is common, takes no detour.
fn digits(block: &mut [u8], at: usize, n: u64) -> usize
    requires { at + 20 ≤ length block.old }
    ensures { Digits (Spelled n) 20 block.old at (block_of result block.new) }
{
    if n < 10 {
        block[at] = b'0' + n as u8;
        return at + 1;
    }
    let mut text = [0u8; 20];
    let count = io::decimal(n, &mut text);
    block[at..at + count].copy_from_slice(&text[..count]);
    at + count
}
