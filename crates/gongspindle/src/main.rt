// The program of document 01: reads records from standard input, prints a line for each good one, and
// then how many there were, or which one is bad. Every rule stands in the crates below; look.rt finds
// what the line of a record says, levels.rt that of a picture, print.rt prints, and here is the order.
#![tactic(auto)]

mod levels;
mod look;
mod print;

ghost use Rattle.std.specs.Prelude.{◌≡◌, length};
ghost use Rattle.gongspindle.specs.Program.{OutcomeIs};

use records::Faulty;
use streams::Failed;

// Why a run stops before the end of its input: a record is faulty, and is the last that was read; or a
// line could not be written.
#[derive(Clone, Copy)]
enum Stopped {
    Faulty(Faulty),
    Unwritten(Failed),
}

impl From<Faulty> for Stopped {
    ghost use Rattle.gongspindle.specs.Program.{StopsAt};

    ghost from_gives = { StopsAt };

    fn from(faulty: Faulty) -> Stopped {
        Stopped::Faulty(faulty)
    }
}

impl From<Failed> for Stopped {
    ghost use Rattle.gongspindle.specs.Program.{StopsUnwritten};

    ghost from_gives = { StopsUnwritten };

    fn from(failed: Failed) -> Stopped {
        Stopped::Unwritten(failed)
    }
}

// The records, one after the other: each begins where the one before it ends. How many there are.
fn report<P: Print + Eprint>(rt: &P, input: &[u8]) -> Result<u64, Stopped>
    ensures { OutcomeIs input.now result }
{
    let mut at = 0;
    let mut good = 0u64;
    // a `while`, since where a record begins comes of the one before it
    while let Some(record) = look::look(input, at)? {
        print::line(rt, record.said)?;
        at = record.next;
        good += 1;
    }
    Ok(good)
}

// A space of zeros: made by a function, which promises its length, so that no check looks into thousands of them.
fn space<T: Copy + Drop, const N: usize>(zero: T) -> [T; N]
    ensures { N ≡ length result }
{
    [zero; N]
}

// The whole input is read before anything is printed: one that is too long gives a single line, and
// one that cannot be read to its end gives none. What could not be read or written has been said on
// standard error by then.
fn main(rt: HostRuntime) {
    // as many bytes as an input may have, and one more, which shows that there are too many
    let mut input: [u8; 32_769] = space(0);
    let Ok(count) = streams::read(&mut rt.stdin(), &rt, &mut input) else {
        return;
    };
    // the last line is the last thing done: whether it was written changes nothing more
    let _ = match report(&rt, &input[..count]) {
        Ok(good) => print::records(&rt, good),
        Err(Stopped::Faulty(faulty)) => print::bad(&rt, faulty),
        Err(Stopped::Unwritten(failed)) => Err(failed),
    };
}
