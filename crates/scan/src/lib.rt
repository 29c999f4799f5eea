// Rows while the beam runs (document 02, P1): rows that come, and the end. What a scan holds between its
// calls lies in memory that the caller lends, and `memory::start` begins it. Of the picture it has the six
// rows that are still needed, and nothing else; steps.rt takes the rows that come, one by one.
#![tactic(auto)]

ghost use Rattle.std.specs.Result.{result_unwrap_or};
ghost use Rattle.answers.specs.Numbers.{told};
ghost use Rattle.scan.specs.Scan.{scanned, RowsIs, EndIs};

use answers::Refusal;

mod steps;

// Rows come, one or several or none: the rows of the filtered picture that they complete go to the front
// of the output. Refused by 1, 20, 21 and 3, in this order, with nothing changed.
// (Its first lines are those of `end` too: a function for them would have to promise again all that `begun` says of the memory.)
pub fn rows(held: &mut [u16], levels: &[u8], output: &mut [u16]) -> Result<usize, Refusal>
    ensures { RowsIs held.old levels.now output.old (scanned (told result) (result_unwrap_or result 0) held.new output.new) }
{
    if !memory::begun(held) {
        return Err(Refusal::SideOutOfRange);
    }
    // `as`, and not `usize::from`: so the tests below speak of `held` itself, and need no step between
    let width = held[0] as usize;
    let height = held[1] as usize;
    let came = held[2] as usize;
    if levels.len() % width != 0 {
        return Err(Refusal::PartOfARow);
    }
    let n = levels.len() / width;
    if height.saturating_sub(came) < n {
        return Err(Refusal::RowsBeyond);
    }
    let due = (came + n).saturating_sub(3) - came.saturating_sub(3);
    if output.len() < due * width {
        return Err(Refusal::ShortOutput);
    }
    steps::take_rows(
        &mut held[3..6_147],
        steps::Place {
            width,
            height,
            k: came,
        },
        width,
        n,
        levels,
        output,
    );
    held[2] = (came + n) as u16;
    Ok(due)
}

// The end, after the last row: the rows of the filtered picture that are still due go to the front of the
// output, and nothing is held any more. They are those that three rows more complete that are not there.
// Refused by 1, 22 and 3, in this order, with nothing changed.
pub fn end(held: &mut [u16], output: &mut [u16]) -> Result<usize, Refusal>
    ensures { EndIs held.old output.old (scanned (told result) (result_unwrap_or result 0) held.new output.new) }
{
    if !memory::begun(held) {
        return Err(Refusal::SideOutOfRange);
    }
    // `as`, and not `usize::from`: so the tests below speak of `held` itself, and need no step between
    let width = held[0] as usize;
    let height = held[1] as usize;
    let came = held[2] as usize;
    if came != height {
        return Err(Refusal::NotTheEnd);
    }
    let due = height.min(3);
    if output.len() < due * width {
        return Err(Refusal::ShortOutput);
    }
    // the levels of rows that are not there: none
    let none = [0u8; 1];
    steps::take_rows(
        &mut held[3..6_147],
        steps::Place {
            width,
            height,
            k: came,
        },
        0,
        3,
        &none[..0],
        output,
    );
    // zeros for the rows; it is not refused, since the memory is long enough and its sides are a picture's
    let _begins = memory::start(held, width, height);
    held[2] = (height + 3) as u16;
    Ok(due)
}
