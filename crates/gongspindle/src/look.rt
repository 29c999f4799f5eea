// What is found at an offset of the input: nothing is read or written here, so that all of it is
// promised.
ghost use Rattle.gongspindle.specs.Program.{FoundIs};

use crate::levels;
use crate::levels::Line;
use records::{Faulty, Record};
use units::Picometres;

// What the line of a good record says.
#[derive(Clone, Copy)]
pub(crate) enum Said {
    Picture { side: usize, line: Line },
    Pixel { size: Picometres },
}

// A good record, by what its line says and where the next one begins.
#[derive(Clone, Copy)]
pub(crate) struct Good {
    pub(crate) said: Said,
    pub(crate) next: usize,
}

// The record at an offset, and what its line says; none where the input ends there.
pub(crate) fn look(input: &[u8], at: usize) -> Result<Option<Good>, Faulty>
    ensures { FoundIs input.now at result }
{
    match records::record_at(input, at)? {
        Some(Record::Picture { side, start, end }) => {
            let line = levels::line_of(&input[start..end], side);
            Ok(Some(Good {
                said: Said::Picture { side, line },
                next: end,
            }))
        }
        Some(Record::Pixel { size, end }) => Ok(Some(Good {
            said: Said::Pixel { size },
            next: end,
        })),
        None => Ok(None),
    }
}
