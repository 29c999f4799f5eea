// The lines that the program prints, each in document 01's form. Each function fails where not all of
// its line was written; that is said on standard error, and no more is written.
use crate::levels::Line;
use crate::look::Said;
use records::Faulty;
use streams::{Failed, sent};

// The line of a good record: "for kind 3 `pixel` and the size"
pub(crate) fn line<P: Print + Eprint>(rt: &P, said: Said) -> Result<(), Failed> {
    match said {
        Said::Picture { side, line } => picture(rt, side, line),
        Said::Pixel { size } => {
            let size = size.amount();
            sent(rt, println!(rt; "pixel {size}"))
        }
    }
}

// "For a picture it prints width, height, number, q, rounds, numerator/denominator"
fn picture<P: Print + Eprint>(rt: &P, side: usize, line: Line) -> Result<(), Failed> {
    let (number, q) = judge::numbers(line.verdict);
    let rounds = line.threshold.rounds;
    let numerator = line.threshold.value.numerator;
    let denominator = line.threshold.value.denominator;
    sent(
        rt,
        println!(rt; "{side} {side} {number} {q} {rounds} {numerator}/{denominator}"),
    )
}

// "at the end `records` and their number"
pub(crate) fn records<P: Print + Eprint>(rt: &P, good: u64) -> Result<(), Failed> {
    sent(rt, println!(rt; "records {good}"))
}

// "A faulty record gives `bad`, number, `at`, offset of its kind byte as the last line"
pub(crate) fn bad<P: Print + Eprint>(rt: &P, faulty: Faulty) -> Result<(), Failed> {
    let number = faulty.why.number();
    let offset = faulty.offset;
    sent(rt, println!(rt; "bad {number} at {offset}"))
}
