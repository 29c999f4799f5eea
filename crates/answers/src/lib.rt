// What a call answers besides its result: why it was refused (`Refusal`), and, in specs/ and proofs/, the
// chain of refusals, by which each call's promise says which of them comes when.
#![tactic(auto)]

ghost use Rattle.std.specs.Prelude.{◌≡◌};
ghost use Rattle.answers.specs.Numbers.{number_of, told};

// Document 01, "Numbers that come back": why a call was refused, each with the table's number and its own
// words. (16 to 18 are of the program gongspindle; those from 20 on are of document 02, which also amends a
// number above.) 0 is "done".
#[derive(Clone, Copy, Debug, PartialEq, Eq)]
pub enum Refusal {
    // "w or h outside 1..1,024"
    SideOutOfRange = 1,
    // "levels lent ≠ w·h"
    WrongLevels = 2,
    // "output shorter than w·h"
    ShortOutput = 3,
    // "work buffer shorter than w·h"
    ShortWork = 4,
    // "measuring, a side no multiple of 4"; document 02, P3: also "when a side is below 8"
    SideNotByFour = 5,
    // "M out of range"
    BrightOutOfRange = 6,
    // "m out of range"
    DarkOutOfRange = 7,
    // "D = 0"
    NoNoise = 8,
    // "q < 1,000"
    LowRatio = 9,
    // "histogram not 256 long"
    WrongHistogram = 10,
    // "threshold asked of an empty histogram"
    EmptyHistogram = 11,
    // "threshold asked of a total above 1,048,576"
    LargeTotal = 12,
    // "sample place outside its bounds"
    PlaceOutside = 13,
    // "s or p out of range"
    FactorOrPixelOutOfRange = 14,
    // "judge's input, or the values to be counted, out of range"
    InputOutOfRange = 15,
    // "unknown record kind"
    UnknownKind = 16,
    // "record body cut short"
    ShortBody = 17,
    // "program input above 32,768 bytes"
    LongInput = 18,
    // Document 02, P1: "a number of levels that is no whole number of rows"
    PartOfARow = 20,
    // "rows beyond the height"
    RowsBeyond = 21,
    // "an end before the last row or a second end"
    NotTheEnd = 22,
}

impl Refusal {
    // The table's number.
    pub fn number(self) -> u8
        ensures { result ≡ number_of self }
    {
        self as u8
    }
}

// The number that comes back: 0 for "done".
pub fn number<T: Copy>(answer: Result<T, Refusal>) -> u8
    ensures { result ≡ told answer }
{
    match answer {
        Ok(_) => 0,
        Err(refusal) => refusal.number(),
    }
}
