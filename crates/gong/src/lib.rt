// The C door of the library: libgong.a, which include/gong.h declares. Every rule stands in the
// crates below; here plain numbers become units, and an answer's parts go out by the number that
// the function returns and through the pointers that the caller lends.
#![tactic(auto)]

ghost use Rattle.units.specs.Units.{sixteenths, picometres, eighths};
ghost use Rattle.filter.specs.Filter.{outcome, FilterIs};
ghost use Rattle.memory.specs.Memory.{StartIs};
ghost use Rattle.scan.specs.Scan.{scanned, RowsIs, EndIs};
ghost use Rattle.judge.specs.Judge.{verdict, JudgeIs};
ghost use Rattle.judge.specs.Measure.{measurement, MeasureIs};
ghost use Rattle.threshold.specs.Histogram.{tally, CountIs};
ghost use Rattle.arithmetic.specs.Fractions.{fraction};
ghost use Rattle.threshold.specs.TwoMeans.{answered, TwoMeansIs};
ghost use Rattle.sample.specs.Cubic.{sampled, SampleIs};
ghost use Rattle.length.specs.Length.{sharpness, LengthIs};

use threshold::NO_THRESHOLD;
use units::{Eighths, Picometres, Sixteenths};

// The median, three times: output receives pass three in eighths of a level, work pass two in
// quarters.
#[unsafe(no_mangle)]
pub extern "C" fn gong_filter(
    levels: &[u8],
    width: usize,
    height: usize,
    output: &mut [u16],
    work: &mut [u16],
) -> u8
    ensures { FilterIs levels.now width height output.old work.old (outcome result output.new work.new) }
{
    answers::number(filter::filter(levels, width, height, output, work))
}

// A scan begins, in memory that the caller lends, of a picture of `height` rows of `width` levels.
#[unsafe(no_mangle)]
pub extern "C" fn gong_scan_start(held: &mut [u16], width: usize, height: usize) -> u8
    ensures { StartIs held.old width height result held.new }
{
    answers::number(memory::start(held, width, height))
}

// Rows of a scan come: output receives the filtered rows that they complete, rows how many.
#[unsafe(no_mangle)]
pub extern "C" fn gong_scan_rows(
    held: &mut [u16],
    levels: &[u8],
    output: &mut [u16],
    rows: &mut u64,
) -> u8
    ensures { RowsIs held.old levels.now output.old (scanned result rows.new held.new output.new) }
{
    let given = scan::rows(held, levels, output);
    *rows = given.unwrap_or(0) as u64;
    answers::number(given)
}

// The end of a scan: output receives the filtered rows that are still due, rows how many.
#[unsafe(no_mangle)]
pub extern "C" fn gong_scan_end(held: &mut [u16], output: &mut [u16], rows: &mut u64) -> u8
    ensures { EndIs held.old output.old (scanned result rows.new held.new output.new) }
{
    let last = scan::end(held, output);
    *rows = last.unwrap_or(0) as u64;
    answers::number(last)
}

// Measuring: the picture filtered, and the ratio in hundredths.
#[unsafe(no_mangle)]
pub extern "C" fn gong_measure(
    levels: &[u8],
    width: usize,
    height: usize,
    output: &mut [u16],
    work: &mut [u16],
    ratio: &mut u64,
) -> u8
    ensures { MeasureIs levels.now width height output.old work.old (measurement (verdict result ratio.new) output.new work.new) }
{
    let measured = judge::measure(levels, width, height, output, work);
    let (number, q) = judge::numbers(measured);
    *ratio = q;
    number
}

// The judge alone: N, M and m in eighths of a level, D, and the ratio in hundredths.
#[unsafe(no_mangle)]
pub extern "C" fn gong_judge(count: u64, bright: u64, dark: u64, spread: u64, ratio: &mut u64) -> u8
    ensures { JudgeIs count (eighths bright) (eighths dark) spread (verdict result ratio.new) }
{
    let judged = judge::judge(count, Eighths::of(bright), Eighths::of(dark), spread);
    let (number, hundredths) = judge::numbers(judged);
    *ratio = hundredths;
    number
}

// Counting: filtered values in eighths of a level, by their whole levels.
#[unsafe(no_mangle)]
pub extern "C" fn gong_count(values: &[u16], histogram: &mut [u32]) -> u8
    ensures { CountIs values.now histogram.old (tally result histogram.new) }
{
    answers::number(threshold::count(values, histogram))
}

// The two means: the threshold at rest, numerator over denominator, and the rounds until then.
#[unsafe(no_mangle)]
pub extern "C" fn gong_two_means(
    histogram: &[u32],
    rounds: &mut u64,
    numerator: &mut u64,
    denominator: &mut u64,
) -> u8
    ensures { TwoMeansIs histogram.now (answered result rounds.new (fraction numerator.new denominator.new)) }
{
    let found = threshold::two_means(histogram);
    let rest = found.unwrap_or(NO_THRESHOLD);
    *rounds = rest.rounds;
    *numerator = rest.value.numerator;
    *denominator = rest.value.denominator;
    answers::number(found)
}

// A sample: x and y in sixteenths of a pixel, value in 1/67,108,864 levels.
#[unsafe(no_mangle)]
pub extern "C" fn gong_sample(
    levels: &[u8],
    width: usize,
    height: usize,
    x: i64,
    y: i64,
    value: &mut i64,
) -> u8
    ensures { SampleIs levels.now width height (sixteenths x) (sixteenths y) (sampled result value.new) }
{
    let sampled = sample::sample(levels, width, height, Sixteenths::of(x), Sixteenths::of(y));
    // each case by itself, since the prover follows a signed number through a pointer from a local alone
    match sampled {
        Ok(signed) => {
            *value = signed;
            0
        }
        Err(refusal) => {
            *value = 0;
            refusal.number()
        }
    }
}

// The length of a sharpness: factor in sixteenths of a pixel, pixel and length in picometres.
#[unsafe(no_mangle)]
pub extern "C" fn gong_length(factor: i64, pixel: u64, length: &mut u64) -> u8
    ensures { LengthIs (sixteenths factor) (picometres pixel) (sharpness result length.new) }
{
    let answer = length::length(Sixteenths::of(factor), Picometres::of(pixel));
    *length = answer.unwrap_or(Picometres::of(0)).amount();
    answers::number(answer)
}
