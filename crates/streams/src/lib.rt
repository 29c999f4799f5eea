// Standard input for the programs: read until a space is full, with an end of the input told from a
// read that fails. And what is said, in one line on standard error, where a stream fails.
#![tactic(auto)]

ghost use Rattle.std.specs.Prelude.{◌≡◌};
ghost use Rattle.streams.specs.Streams.{Received, NextBytes, got, said};

use std::fmt::InlineText;
use std::io;
use std::io::Read;

// A stream failed, and that has been said in one line on standard error.
#[derive(Clone, Copy, Debug, PartialEq, Eq)]
pub struct Failed;

// Reads until the space is full or the input ends: how many bytes came, which stand at the start of the
// space. Where a read fails, what came before it is dropped.
pub fn read<R: Read, E: Eprint>(
    input: &mut R,
    errors: &E,
    space: &mut [u8],
) -> Result<usize, Failed>
    ensures received { Received space.new (got result) }
    ensures bytes { NextBytes (R.remaining input.old) (R.remaining input.new) space.new (got result) }
{
    let mut done = 0;
    // a `while`, since it goes by the bytes that came and not by turns
    while done < space.len() {
        let count = came(errors, input.read(&mut space[done..]))?;
        if count == 0 {
            break;
        }
        done += count;
    }
    Ok(done)
}

// What a read answered.
fn came<E: Eprint>(errors: &E, answer: io::Result<usize>) -> Result<usize, Failed>
    ensures { result ≡ said answer }
{
    told(errors, "standard input", answer)
}

// What a write answered.
pub fn sent<E: Eprint>(errors: &E, answer: io::Result<()>) -> Result<(), Failed>
    ensures { result ≡ said answer }
{
    told(errors, "standard output", answer)
}

// What a stream answered. Where it failed, a line on standard error says so, and why in the system's words.
fn told<T: Drop, E: Eprint>(errors: &E, stream: &str, answer: io::Result<T>) -> Result<T, Failed>
    ensures { result ≡ said answer }
{
    match answer {
        Ok(value) => Ok(value),
        Err(why) => {
            let all = InlineText::<256>::of(why);
            let words = words(all.as_str());
            // where standard error fails too, nothing is left to say it on
            let _ = eprintln!(errors; "{stream}: {words}");
            Err(Failed)
        }
    }
}

// The system's words are followed by its number: " (os error 5)".
fn words(all: &str) -> &str {
    match all.split_once(" (os error ") {
        Some((words, _)) => words,
        None => all,
    }
}
