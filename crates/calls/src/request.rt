// What comes from standard input: the bytes of numbers, read-only slices, buffers. What the input is
// too short for is bad, and so is a slice or a buffer that is longer than the space for it.
ghost use Rattle.std.specs.Prelude.{◌≤◌, length, IfOk};
ghost use Rattle.answers.specs.Refusals.{Unless};
ghost use Rattle.calls.specs.declared.Stop.TheVariants.{Bad};
ghost use Rattle.calls.specs.Space.{All, None, LentIs};

use crate::element::Element;
use crate::{Stop, wire};
use arithmetic::bytes;

// The letter of the next request.
pub(crate) fn beginning(rt: &HostRuntime) -> Result<u8, Stop> {
    let mut b = [0u8; 1];
    let count = streams::read(&mut rt.stdin(), rt, &mut b)?;
    if count == 0 {
        return Err(Stop::NoMore);
    }
    Ok(b[0])
}

// Fills a space from the input.
pub(crate) fn fill(rt: &HostRuntime, space: &mut [u8]) -> Result<(), Stop> {
    let count = streams::read(&mut rt.stdin(), rt, space)?;
    if count < space.len() {
        return Err(Stop::Bad);
    }
    Ok(())
}

// A length as it was read, against a space of `most`: taken up to that very number, and no more.
fn up_to(n: u64, most: usize) -> Result<usize, Stop>
    ensures { Unless (n ≤ most) (None Bad result) (All n result) }
{
    if (most as u64) < n {
        return Err(Stop::Bad);
    }
    Ok(n as usize)
}

// A length that a space of `most` has room for.
fn size(rt: &HostRuntime, most: usize) -> Result<usize, Stop>
    ensures { IfOk result (λ n. n ≤ most) }
{
    let mut b = [0u8; 8];
    fill(rt, &mut b)?;
    up_to(bytes::number(b), most)
}

// A read-only slice of levels, a byte each: how many, which are then at the front of the space.
pub(crate) fn levels(rt: &HostRuntime, space: &mut [u8]) -> Result<usize, Stop>
    ensures { IfOk result (λ n. n ≤ length space.new) }
{
    let n = size(rt, space.len())?;
    fill(rt, &mut space[..n])?;
    Ok(n)
}

// A read-only slice of other elements, by way of a block of bytes.
pub(crate) fn slice<T: Element>(rt: &HostRuntime, space: &mut [T]) -> Result<usize, Stop>
    ensures { IfOk result (λ n. n ≤ length space.new) }
{
    let n = size(rt, space.len())?;
    let mut block = io::large_buffer();
    for part in space[..n].chunks_mut(8_192) {
        let b = &mut block[..T::BYTES * part.len()];
        fill(rt, b)?;
        T::join(b, part);
    }
    Ok(n)
}

// A buffer from the bytes of its length and of the value that fills it.
fn lent<T: Element>(b: &[u8; 16], space: &mut [T]) -> Result<usize, Stop>
    ensures { LentIs T.low_bits b.now space.old result space.new }
{
    let n = up_to(wire::number(b, 0), space.len())?;
    T::fill(&mut space[..n], wire::number(b, 1));
    Ok(n)
}

// The same, with its bytes read from the input.
pub(crate) fn buffer<T: Element>(rt: &HostRuntime, space: &mut [T]) -> Result<usize, Stop>
    ensures { IfOk result (λ n. n ≤ length space.new) }
{
    let mut b = [0u8; 16];
    fill(rt, &mut b)?;
    lent(&b, space)
}
