// What goes to standard output, by way of a block: text is put into the block, and the block is written
// when it is nearly full and at the end of an answer. What the digits are is promised by the crate `text`;
// here is when they are written.
ghost use Rattle.std.specs.Prelude.{◌≡◌, ◌≤◌, ◌+◌, OnOk};

use answers::Refusal;
use streams::Failed;

// How many bytes the block has: `io::large_buffer`.
const BLOCK: usize = 65_536;

// How many bytes a number, its sign and what stands after it have at most, and some more.
const ROOM: usize = 32;

// Text on its way out: that at the front of the block is still to be written.
#[derive(Drop)]
pub(crate) struct Text {
    block: [u8; 65_536],
    at: usize,
    ghost inside: { at ≤ 65_536 },
}

impl Text {
    pub(crate) fn new() -> Text {
        Text {
            block: io::large_buffer(),
            at: 0,
        }
    }

    // Writes what the block has.
    pub(crate) fn send(&mut self, rt: &HostRuntime) -> Result<(), Failed>
        ensures { self.new.at ≡ 0 }
    {
        let answer = rt.write_all(&self.block[..self.at]);
        self.at = 0;
        streams::sent(rt, answer)
    }

    // Makes room for a number.
    fn make_room(&mut self, rt: &HostRuntime) -> Result<(), Failed>
        ensures { OnOk result (self.new.at + 32 ≤ 65_536) }
    {
        if BLOCK - ROOM < self.at {
            self.send(rt)?;
        }
        Ok(())
    }

    // A byte.
    fn byte(&mut self, rt: &HostRuntime, b: u8) -> Result<(), Failed> {
        self.make_room(rt)?;
        self.block[self.at] = b;
        self.at += 1;
        Ok(())
    }

    // A number, and the byte `after` behind it.
    fn number(&mut self, rt: &HostRuntime, n: u64, after: u8) -> Result<(), Failed> {
        self.make_room(rt)?;
        self.at = text::number(&mut self.block, self.at, n, after);
        Ok(())
    }

    // The same of a signed number.
    fn signed(&mut self, rt: &HostRuntime, v: i64, after: u8) -> Result<(), Failed> {
        self.make_room(rt)?;
        self.at = text::signed(&mut self.block, self.at, v, after);
        Ok(())
    }

    // A letter and numbers after it, as a line.
    pub(crate) fn line(
        &mut self,
        rt: &HostRuntime,
        letter: u8,
        numbers: &[u64],
    ) -> Result<(), Failed> {
        self.byte(rt, letter)?;
        self.byte(rt, b' ')?;
        self.elements(rt, numbers)
    }

    // A letter and the number that came back, as a line.
    pub(crate) fn number_line(
        &mut self,
        rt: &HostRuntime,
        letter: u8,
        answer: Result<(), Refusal>,
    ) -> Result<(), Failed> {
        self.line(rt, letter, &[u64::from(answers::number(answer))])
    }

    // A letter, a number and a signed number, as a line.
    pub(crate) fn signed_line(
        &mut self,
        rt: &HostRuntime,
        letter: u8,
        number: u64,
        v: i64,
    ) -> Result<(), Failed> {
        self.byte(rt, letter)?;
        self.byte(rt, b' ')?;
        self.number(rt, number, b' ')?;
        self.signed(rt, v, b'\n')
    }

    // Numbers, as the rest of a line: a space between two, and the end of the line after the last.
    pub(crate) fn elements<T: Copy + Into<u64>>(
        &mut self,
        rt: &HostRuntime,
        s: &[T],
    ) -> Result<(), Failed> {
        let Some((&last, others)) = s.split_last() else {
            return self.byte(rt, b'\n');
        };
        for &x in others {
            self.number(rt, x.into(), b' ')?;
        }
        self.number(rt, last.into(), b'\n')
    }

    // The run's last line: some words and a number.
    pub(crate) fn last(&mut self, rt: &HostRuntime, words: &[u8], n: u64) -> Result<(), Failed> {
        streams::sent(rt, rt.write_all(words))?;
        self.number(rt, n, b'\n')?;
        self.send(rt)
    }
}
