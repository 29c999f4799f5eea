// The calls themselves, on what a request brought: the levels or values that it lends, and the bytes of
// its numbers, eight to each, in the order in which they came. Nothing is read or written here, so each
// function promises what the call does of the numbers that those bytes stand for, and of what is printed: of a
// refused call too, so that the zeros beside its number are promised here.
ghost use Rattle.std.specs.Int.{w64};
ghost use Rattle.std.proofs.Common.{to_z};
ghost use Rattle.std.specs.Prelude.{◌≡◌};
ghost use Rattle.std.specs.Result.{result_unwrap_or};
ghost use Rattle.answers.specs.Numbers.{told};
ghost use Rattle.units.specs.Units.{sixteenths, picometres, eighths};
ghost use Rattle.filter.specs.Filter.{FilterIs, outcome};
ghost use Rattle.memory.specs.Memory.{StartIs};
ghost use Rattle.scan.specs.Scan.{scanned, RowsIs, EndIs};
ghost use Rattle.judge.specs.Judge.{JudgeIs, verdict_of};
ghost use Rattle.judge.specs.Measure.{MeasureIs, measurement};
ghost use Rattle.threshold.specs.TwoMeans.{TwoMeansIs, answered};
ghost use Rattle.sample.specs.Cubic.{SampleIs, sampled};
ghost use Rattle.length.specs.Length.{LengthIs, sharpness};
ghost use Rattle.calls.specs.Space.{argument};

use crate::wire::{number, signed};
use answers::Refusal;
use judge::Unmeasured;
use threshold::{NO_THRESHOLD, Resting};
use units::{Eighths, Picometres};

// `f`: width, height.
pub(crate) fn filter(
    levels: &[u8],
    b: &[u8; 16],
    output: &mut [u16],
    work: &mut [u16],
) -> Result<(), Refusal>
    ensures { FilterIs levels.now (argument b.now 0) (argument b.now 1)
        output.old work.old (outcome (told result) output.new work.new) }
{
    filter::filter(
        levels,
        number(b, 0) as usize,
        number(b, 1) as usize,
        output,
        work,
    )
}

// `b`: width, height.
pub(crate) fn start(held: &mut [u16], b: &[u8; 16]) -> Result<(), Refusal>
    ensures { StartIs held.old (argument b.now 0) (argument b.now 1) (told result) held.new }
{
    memory::start(held, number(b, 0) as usize, number(b, 1) as usize)
}

// `r`: the number, and how many rows came out.
pub(crate) fn rows(held: &mut [u16], levels: &[u8], output: &mut [u16]) -> (u8, u64)
    ensures { RowsIs held.old levels.now output.old (scanned result.0 result.1 held.new output.new) }
{
    given(scan::rows(held, levels, output))
}

// `z`: the same.
pub(crate) fn end(held: &mut [u16], output: &mut [u16]) -> (u8, u64)
    ensures { EndIs held.old output.old (scanned result.0 result.1 held.new output.new) }
{
    given(scan::end(held, output))
}

// A call that gives rows out gives none where it is refused.
fn given(answer: Result<usize, Refusal>) -> (u8, u64)
    ensures { result ≡ (told answer, result_unwrap_or answer 0) }
{
    (answers::number(answer), answer.unwrap_or(0) as u64)
}

// `m`: width, height.
pub(crate) fn measure(
    levels: &[u8],
    b: &[u8; 16],
    output: &mut [u16],
    work: &mut [u16],
) -> Result<u64, Unmeasured>
    ensures { MeasureIs levels.now (argument b.now 0) (argument b.now 1)
        output.old work.old (measurement (verdict_of result) output.new work.new) }
{
    judge::measure(
        levels,
        number(b, 0) as usize,
        number(b, 1) as usize,
        output,
        work,
    )
}

// `j`: count, bright, dark, spread.
pub(crate) fn judge(b: &[u8; 32]) -> Result<u64, Unmeasured>
    ensures { JudgeIs (argument b.now 0) (eighths (argument b.now 1))
        (eighths (argument b.now 2)) (argument b.now 3) (verdict_of result) }
{
    let bright = Eighths::of(number(b, 1));
    let dark = Eighths::of(number(b, 2));
    judge::judge(number(b, 0), bright, dark, number(b, 3))
}

// `t`: the number, and the threshold with its rounds.
pub(crate) fn two_means(histogram: &[u32]) -> (u8, Resting)
    ensures { TwoMeansIs histogram.now (answered result.0 result.1.rounds result.1.value) }
{
    let found = threshold::two_means(histogram);
    (answers::number(found), found.unwrap_or(NO_THRESHOLD))
}

// `s`: width, height, x, y.
pub(crate) fn sample(levels: &[u8], b: &[u8; 32]) -> (u8, i64)
    ensures { SampleIs levels.now (argument b.now 0) (argument b.now 1)
        (sixteenths (to_z w64 (argument b.now 2))) (sixteenths (to_z w64 (argument b.now 3)))
        (sampled result.0 result.1) }
{
    let sampled = sample::sample(
        levels,
        number(b, 0) as usize,
        number(b, 1) as usize,
        signed(b, 2),
        signed(b, 3),
    );
    match sampled {
        Ok(value) => (0, value),
        Err(refusal) => (refusal.number(), 0),
    }
}

// `l`: factor, pixel.
pub(crate) fn length(b: &[u8; 16]) -> (u8, u64)
    ensures { LengthIs (sixteenths (to_z w64 (argument b.now 0))) (picometres (argument b.now 1))
        (sharpness result.0 result.1) }
{
    let answer = length::length(signed(b, 0), Picometres::of(number(b, 1)));
    let picometres = answer.unwrap_or(Picometres::of(0)).amount();
    (answers::number(answer), picometres)
}
