// The program `calls`: every public call, driven from standard input, so that any language can call
// the library and a second program can be held against it. A request is a letter and the call's
// arguments; its answer is a line, and one line more for each buffer that was lent. request.rt reads,
// asked.rt makes the calls, answer.rt writes, and each.rt puts the three together, call by call.
#![tactic(auto)]

mod answer;
mod asked;
mod each;
mod element;
mod request;
mod wire;

ghost use Rattle.std.specs.Prelude.{◌≡◌, length};
ghost use Rattle.calls.specs.declared.Stop.TheVariants.{Failed as Stop_Failed};

use answer::Text;
use streams::Failed;

// Why no other request is answered.
#[derive(Clone, Copy, Debug, PartialEq, Eq)]
pub(crate) enum Stop {
    // the input ended before another one began
    NoMore,
    // it was cut short, named no call or was too long
    Bad,
    // standard input or output failed, and that has been said
    Failed,
}

impl From<Failed> for Stop {
    ghost from_gives = { λ _ e. e ≡ Stop_Failed };

    fn from(_failed: Failed) -> Stop {
        Stop::Failed
    }
}

// What slices and buffers are read into and lent from, and the memory of the one scan that the program
// keeps: all zeros is "before a good start".
#[derive(Drop)]
pub(crate) struct Spaces<'a> {
    pub(crate) levels: &'a mut [u8],
    pub(crate) one: &'a mut [u16],
    pub(crate) two: &'a mut [u16],
    pub(crate) counts: &'a mut [u32],
    pub(crate) held: &'a mut [u16],
}

// The next request, by its letter. Each call reads its own arguments, into the spaces that it needs, and
// writes its answer.
fn turn(rt: &HostRuntime, text: &mut Text, spaces: Spaces<'_>) -> Result<(), Stop> {
    let Spaces {
        levels,
        one,
        two,
        counts,
        held,
    } = spaces;
    // the letters are bytes of the input, and this is their table
    match request::beginning(rt)? {
        b'f' => each::filter(rt, text, levels, one, two),
        b'm' => each::measure(rt, text, levels, one, two),
        b'b' => each::start(rt, text, held),
        b'r' => each::rows(rt, text, held, levels, one),
        b'z' => each::end(rt, text, held, one),
        b'j' => each::judge(rt, text),
        b'c' => each::count(rt, text, one, counts),
        b't' => each::two_means(rt, text, counts),
        b's' => each::sample(rt, text, levels),
        b'l' => each::length(rt, text),
        _ => Err(Stop::Bad),
    }
}

// The run's last line. There is none where standard input or output failed.
fn finish(rt: &HostRuntime, text: &mut Text, stop: Stop, answered: u64) -> Result<(), Failed> {
    match stop {
        Stop::NoMore => text.last(rt, b"answered ", answered),
        Stop::Bad => text.last(rt, b"bad request ", answered),
        Stop::Failed => Err(Failed),
    }
}

// A space of zeros: made by a function, so that no check looks into a million of them.
fn space<T: Copy + Drop, const N: usize>(zero: T) -> [T; N]
    ensures { N ≡ length result }
{
    [zero; N]
}

// Requests, one after the other. Nothing says that the input ends, so the loop does, at a number of
// requests that no run reaches. (The loop is not main's: there Rattle's own compiler keeps one array twice,
// which is more than a stack has.)
fn serve(
    rt: &HostRuntime,
    text: &mut Text,
    levels: &mut [u8],
    one: &mut [u16],
    two: &mut [u16],
    counts: &mut [u32],
    held: &mut [u16],
) -> Result<(), Failed> {
    for answered in 0..u64::MAX {
        let spaces = Spaces {
            levels: &mut *levels,
            one: &mut *one,
            two: &mut *two,
            counts: &mut *counts,
            held: &mut *held,
        };
        if let Err(stop) = turn(rt, text, spaces) {
            return finish(rt, text, stop, answered);
        }
    }
    Ok(())
}

// The spaces are made once and lent, so that no request pays for clearing them: 5 MiB of the 8 that a
// stack has. They are as long as the longest slices and buffers that a request can name: one element more
// than any picture has, so that one too many can be shown, and 4,096 counts. The memory is that of the one
// scan that the program keeps: all zeros is "before a good start".
fn main(rt: HostRuntime) {
    let mut text = Text::new();
    let mut levels: [u8; 1_048_577] = space(0);
    let mut one: [u16; 1_048_577] = space(0);
    let mut two: [u16; 1_048_577] = space(0);
    let mut counts: [u32; 4_096] = space(0);
    let mut held: [u16; memory::LENGTH] = space(0);
    // whether the last line was written changes nothing more
    let _ = serve(
        &rt,
        &mut text,
        &mut levels,
        &mut one,
        &mut two,
        &mut counts,
        &mut held,
    );
}
