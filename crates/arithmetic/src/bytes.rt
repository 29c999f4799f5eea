// Numbers from their bytes, the low one first ("little-endian"): of two parts, two bytes make 16 bits, two
// of these 32, and two of those 64; of eight bytes all at once.
ghost use Rattle.std.specs.Prelude.{◌≡◌, ◌+◌, ◌*◌};
ghost use Rattle.std.specs.Int.{w64};
ghost use Rattle.std.proofs.Common.{to_z};
ghost use Rattle.arithmetic.specs.Bytes.{eight_bytes};

// 16 bits from two bytes.
pub fn pair(low: u8, high: u8) -> u16
    ensures { result ≡ low + high * 256 }
{
    u16::from_le_bytes([low, high])
}

// 32 bits from two pairs. (Of parts std has no method, but of bytes; `pair`, `four` and `eight` keep their promises.)
pub fn four(low: u16, high: u16) -> u32
    ensures { result ≡ low + high * 65_536 }
{
    u32::from(low) + u32::from(high) * 65_536
}

// 64 bits from two fours.
pub fn eight(low: u32, high: u32) -> u64
    ensures { result ≡ low + high * 4_294_967_296 }
{
    u64::from(low) + u64::from(high) * 4_294_967_296
}

// The number that eight bytes stand for.
pub fn number(bytes: [u8; 8]) -> u64
    ensures { result ≡ eight_bytes bytes 0 }
{
    u64::from_le_bytes(bytes)
}

// The signed number that eight bytes stand for, in two's complement.
pub fn signed(bytes: [u8; 8]) -> i64
    ensures { result ≡ to_z w64 (eight_bytes bytes 0) }
{
    number(bytes).cast_signed()
}
