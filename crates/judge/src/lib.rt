// Whether a picture may be measured (document 01, "Extremes and noise"; document 02, P3): pictures.rt
// has what is measured, extremes.rt the sums M and m of the tiles' extremes, noise.rt N and D, and
// ratio.rt the ratio q, found by comparing numbers that outgrow 64 bits.
#![tactic(auto)]

ghost use Rattle.std.specs.Prelude.{true, false, ◌≡◌};
ghost use Rattle.answers.specs.Refusals.{Unless};
ghost use Rattle.answers.specs.Numbers.{told};
ghost use Rattle.units.specs.Units.{eighths};
ghost use Rattle.judge.specs.Judge.{Tested, JudgeIs, verdict_of};
ghost use Rattle.judge.specs.Measure.{MeasurableSide, Judged, MeasureIs, measurement};
ghost use Rattle.judge.specs.Asked.{Unrated};

use crate::pictures::FilteredPicture;
use answers::Refusal;
use units::Eighths;

mod extremes;
mod noise;
mod pictures;
mod ratio;

// Why a picture is not measured. The ratio in hundredths, rounded down, comes back with a low one; beside
// any other refusal it is 0.
#[derive(Clone, Copy, Debug, PartialEq, Eq)]
pub struct Unmeasured {
    pub why: Refusal,
    pub ratio: u64,
}

impl From<Refusal> for Unmeasured {
    ghost from_gives = { Unrated };

    fn from(why: Refusal) -> Unmeasured {
        Unmeasured { why, ratio: 0 }
    }
}

// What comes back by its two numbers: the table's, and the ratio.
pub fn numbers(answer: Result<u64, Unmeasured>) -> (u8, u64)
    ensures { result ≡ ((verdict_of answer).number, (verdict_of answer).ratio) }
{
    match answer {
        Ok(ratio) => (0, ratio),
        Err(unmeasured) => (unmeasured.why.number(), unmeasured.ratio),
    }
}

// Measures a picture of `height` rows of `width` levels: filters it, and judges what came of it.
// Afterwards the buffers are as the filter leaves them. Refused by 1 to 5, with nothing written; a
// picture that is discarded, by 6 to 9, has been filtered all the same.
pub fn measure(
    levels: &[u8],
    width: usize,
    height: usize,
    output: &mut [u16],
    work: &mut [u16],
) -> Result<u64, Unmeasured>
    ensures { MeasureIs levels.now width height output.old work.old (measurement (verdict_of result) output.new work.new) }
{
    filter::sizes(levels.len(), width, height, output.len(), work.len())?;
    if !measurable(width) || !measurable(height) {
        return Err(Refusal::SideNotByFour.into());
    }
    // the sizes that it could refuse have been tested
    filter::filter(levels, width, height, output, work).unwrap();
    let n = width * height;
    judge_picture(&FilteredPicture {
        levels,
        filtered: &output[..n],
        width,
        height,
    })
}

// Whether a side can be cut into tiles, and has more than the three outermost pixels at either end.
fn measurable(side: usize) -> bool
    ensures { Unless (MeasurableSide side) (result ≡ false) (result ≡ true) }
{
    8 <= side && side % 4 == 0
}

// The verdict on a picture and what it was filtered to.
fn judge_picture(picture: &FilteredPicture) -> Result<u64, Unmeasured>
    ensures { Judged picture.now.levels.now picture.now.filtered.now picture.now.width picture.now.height (verdict_of result) }
{
    let sums = extremes::of_tiles(picture);
    let count = noise::inner_pixels(picture);
    let spread = noise::spread(picture);
    judge(count, sums.bright, sums.dark, spread)
}

// Judges a picture by its numbers: `count` is N, how many of its pixels count for the noise; `bright`
// and `dark` are M and m, the sums of the sixteen tiles' maxima and minima; `spread` is D. The ratio in
// hundredths, rounded down. Refused by 15 where one is out of range; else 6 to 9 where the picture is
// discarded.
pub fn judge(count: u64, bright: Eighths, dark: Eighths, spread: u64) -> Result<u64, Unmeasured>
    ensures { JudgeIs count bright dark spread (verdict_of result) }
{
    let eighths_bright = bright.amount();
    let eighths_dark = dark.amount();
    ranges(count, eighths_bright, eighths_dark, spread)?;
    let q = ratio::ratio(count, eighths_bright - eighths_dark, spread);
    if q < 1_000 {
        return Err(Unmeasured {
            why: Refusal::LowRatio,
            ratio: q,
        });
    }
    Ok(q)
}

// The first test that stops the judge before any ratio: 15, then 6, 7, 8.
fn ranges(count: u64, bright: u64, dark: u64, spread: u64) -> Result<(), Refusal>
    ensures { Tested count (eighths bright) (eighths dark) spread (λ n. told result ≡ n) (told result ≡ 0) }
{
    if count < 1
        || 1_048_576 < count
        || 32_640 < bright
        || 32_640 < dark
        || 4_611_686_018_427_387_904 < spread
    {
        return Err(Refusal::InputOutOfRange);
    }
    if !(21_760..=31_360).contains(&bright) {
        return Err(Refusal::BrightOutOfRange);
    }
    if !(1_280..=10_240).contains(&dark) {
        return Err(Refusal::DarkOutOfRange);
    }
    if spread == 0 {
        return Err(Refusal::NoNoise);
    }
    Ok(())
}
