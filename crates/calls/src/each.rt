// Each public call: its arguments read, the call made, its answer written. Where a request is not whole,
// nothing has been answered.
use crate::answer::Text;
use crate::{Stop, asked, request};
use streams::Failed;

// `f`: levels, width, height, output, work.
pub(crate) fn filter(
    rt: &HostRuntime,
    text: &mut Text,
    levels: &mut [u8],
    one: &mut [u16],
    two: &mut [u16],
) -> Result<(), Stop> {
    picture(
        rt,
        text,
        levels,
        one,
        two,
        |text, levels, sides, output, work| {
            text.number_line(rt, b'f', asked::filter(levels, sides, output, work))
        },
    )
}

// `m`: the same.
pub(crate) fn measure(
    rt: &HostRuntime,
    text: &mut Text,
    levels: &mut [u8],
    one: &mut [u16],
    two: &mut [u16],
) -> Result<(), Stop> {
    picture(
        rt,
        text,
        levels,
        one,
        two,
        |text, levels, sides, output, work| {
            let (number, ratio) = judge::numbers(asked::measure(levels, sides, output, work));
            text.line(rt, b'm', &[u64::from(number), ratio])
        },
    )
}

// A call on a picture and its two buffers, which also puts its line; and both buffers as it left them.
fn picture<F>(
    rt: &HostRuntime,
    text: &mut Text,
    levels: &mut [u8],
    one: &mut [u16],
    two: &mut [u16],
    call: F,
) -> Result<(), Stop>
where
    F: FnOnce(&mut Text, &[u8], &[u8; 16], &mut [u16], &mut [u16]) -> Result<(), Failed>,
    requires { F.IsAlwaysCallable call }
{
    let n = request::levels(rt, levels)?;
    let mut sides = [0u8; 16];
    request::fill(rt, &mut sides)?;
    let long = request::buffer(rt, one)?;
    let work_long = request::buffer(rt, two)?;
    let output = &mut one[..long];
    let work = &mut two[..work_long];
    call(text, &levels[..n], &sides, output, work)?;
    text.elements(rt, output)?;
    text.elements(rt, work)?;
    Ok(text.send(rt)?)
}

// `b`: width, height. The scan that the program keeps begins.
pub(crate) fn start(rt: &HostRuntime, text: &mut Text, held: &mut [u16]) -> Result<(), Stop> {
    let mut sides = [0u8; 16];
    request::fill(rt, &mut sides)?;
    text.number_line(rt, b'b', asked::start(held, &sides))?;
    Ok(text.send(rt)?)
}

// `r`: levels, output.
pub(crate) fn rows(
    rt: &HostRuntime,
    text: &mut Text,
    held: &mut [u16],
    levels: &mut [u8],
    one: &mut [u16],
) -> Result<(), Stop> {
    let n = request::levels(rt, levels)?;
    let long = request::buffer(rt, one)?;
    let output = &mut one[..long];
    let given = asked::rows(held, &levels[..n], output);
    Ok(rows_given(rt, text, b'r', given, output)?)
}

// `z`: output.
pub(crate) fn end(
    rt: &HostRuntime,
    text: &mut Text,
    held: &mut [u16],
    one: &mut [u16],
) -> Result<(), Stop> {
    let long = request::buffer(rt, one)?;
    let output = &mut one[..long];
    let given = asked::end(held, output);
    Ok(rows_given(rt, text, b'z', given, output)?)
}

// The answer of a call that gives rows out.
fn rows_given(
    rt: &HostRuntime,
    text: &mut Text,
    letter: u8,
    given: (u8, u64),
    output: &[u16],
) -> Result<(), Failed> {
    let (number, rows) = given;
    text.line(rt, letter, &[u64::from(number), rows])?;
    text.elements(rt, output)?;
    text.send(rt)
}

// `j`: count, bright, dark, spread.
pub(crate) fn judge(rt: &HostRuntime, text: &mut Text) -> Result<(), Stop> {
    let mut numbers = [0u8; 32];
    request::fill(rt, &mut numbers)?;
    let (number, ratio) = judge::numbers(asked::judge(&numbers));
    text.line(rt, b'j', &[u64::from(number), ratio])?;
    Ok(text.send(rt)?)
}

// `c`: values, histogram.
pub(crate) fn count(
    rt: &HostRuntime,
    text: &mut Text,
    one: &mut [u16],
    counts: &mut [u32],
) -> Result<(), Stop> {
    let n = request::slice(rt, one)?;
    let places = request::buffer(rt, counts)?;
    let histogram = &mut counts[..places];
    text.number_line(rt, b'c', threshold::count(&one[..n], histogram))?;
    text.elements(rt, histogram)?;
    Ok(text.send(rt)?)
}

// `t`: histogram.
pub(crate) fn two_means(rt: &HostRuntime, text: &mut Text, counts: &mut [u32]) -> Result<(), Stop> {
    let places = request::slice(rt, counts)?;
    let (number, rest) = asked::two_means(&counts[..places]);
    let value = rest.value;
    text.line(
        rt,
        b't',
        &[
            u64::from(number),
            rest.rounds,
            value.numerator,
            value.denominator,
        ],
    )?;
    Ok(text.send(rt)?)
}

// `s`: levels, width, height, x, y.
pub(crate) fn sample(rt: &HostRuntime, text: &mut Text, levels: &mut [u8]) -> Result<(), Stop> {
    let n = request::levels(rt, levels)?;
    let mut numbers = [0u8; 32];
    request::fill(rt, &mut numbers)?;
    let (number, value) = asked::sample(&levels[..n], &numbers);
    text.signed_line(rt, b's', u64::from(number), value)?;
    Ok(text.send(rt)?)
}

// `l`: factor, pixel.
pub(crate) fn length(rt: &HostRuntime, text: &mut Text) -> Result<(), Stop> {
    let mut numbers = [0u8; 16];
    request::fill(rt, &mut numbers)?;
    let (number, picometres) = asked::length(&numbers);
    text.line(rt, b'l', &[u64::from(number), picometres])?;
    Ok(text.send(rt)?)
}
