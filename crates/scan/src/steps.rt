// Rows that come, one by one: what each completes, and what is kept of it. `rows` is the part of a scan's
// memory that has the six rows.
ghost use Rattle.std.specs.Prelude.{◌≡◌, ◌++◌, ◌+◌, ◌-◌, ◌≤◌, length, drop};
ghost use Rattle.arithmetic.specs.Lists.{over};
ghost use Rattle.memory.specs.Memory.{row_at};
ghost use Rattle.scan.specs.Ring.{last_two, held_in, replaced, next, later};
ghost use Rattle.scan.specs.Held.{completed, pass_three_row, given};
ghost use Rattle.scan.specs.Scan.{at_front};
ghost use Rattle.scan.specs.Asked.{long, Below, Ready, Coming};

// Where a row comes: the picture's sides, and how many rows came before it.
#[derive(Clone, Copy)]
pub(crate) struct Place {
    pub(crate) width: usize,
    pub(crate) height: usize,
    pub(crate) k: usize,
}

// n rows of `each` levels come, the first of them at `place`: `each` is the width, or 0 for rows below the
// last, which are not there. What they complete goes to the front of the output, one row after the other.
// The room for the rows on their way is made once.
pub(crate) fn take_rows(
    rows: &mut [u16],
    place: Place,
    each: usize,
    n: usize,
    levels: &[u8],
    output: &mut [u16],
)
    requires { Ready place.width place.height place.k rows.old × Coming place.width place.height place.k each n rows.old levels.now output.old }
    ensures rows_after { rows.new ≡ later place.width place.height place.k rows.old (row_at each levels.now) n }
    ensures output_after { output.new ≡ at_front (given (held_in place.width place.height place.k rows.old) (row_at each levels.now) n) output.old }
{
    let mut widened = [0; 1_024];
    let mut halves = [0; 1_024];
    let mut quarters = [0; 1_024];
    let mut done = 0;
    for i in 0..n {
        let at = i * each;
        let end = at + each;
        let now = Place {
            k: place.k + i,
            ..place
        };
        take_row(
            rows,
            now,
            &levels[at..end],
            &mut widened,
            &mut halves,
            &mut quarters,
            &mut output[done..],
        );
        done += long(now, 3);
    }
}

// A row of levels comes, or one that is not there: pass by pass, each with the row that the pass before
// completed. The row of pass three goes to the front of `out`. (The three rooms for rows on their way come
// from one loop alone, so that a struct for them would be no plainer.)
fn take_row(
    rows: &mut [u16],
    place: Place,
    levels: &[u8],
    widened: &mut [u16],
    halves: &mut [u16],
    quarters: &mut [u16],
    out: &mut [u16],
)
    requires ready { Ready place.width place.height place.k rows.old × (length levels.now ≡ long place.width place.height place.k 0) × (long place.width place.height place.k 3 ≤ length out.old) }
    requires width_in_bounds { (place.width ≤ length widened.old) × (place.width ≤ length halves.old) × (place.width ≤ length quarters.old) }
    ensures rows_after { rows.new ≡ next place.width place.height place.k rows.old levels.now }
    ensures out_after { out.new ≡ pass_three_row (held_in place.width place.height place.k rows.old) levels.now ++ drop (long place.width place.height place.k 3) out.old }
{
    let two = place.width + place.width;
    let four = two + two;
    let six = four + two;
    let n = levels.len();
    let n1 = long(place, 1);
    let n2 = long(place, 2);
    widen(levels, widened);
    pass(&mut rows[..two], place, 1, &widened[..n], halves);
    pass(&mut rows[two..four], place, 2, &halves[..n1], quarters);
    pass(&mut rows[four..six], place, 3, &quarters[..n2], out);
}

// How long row k − late is: `width`, where the picture has such a row.
fn long(place: Place, late: usize) -> usize
    ensures { result ≡ long place.width place.height place.k late }
{
    if place.k < late {
        return 0;
    }
    if place.k - late < place.height {
        place.width
    } else {
        0
    }
}

// The levels as 16-bit numbers, at the front. (The filter's own asks for a slice of that very length; a public one for both would have to
// be refused. The places are counted, since of what is written through `iter_mut` a proof knows the length alone.)
fn widen(levels: &[u8], out: &mut [u16])
    requires { length levels.now ≤ length out.old }
    ensures { out.new ≡ over out.old 0 levels.now }
{
    for (i, level) in levels.iter().enumerate() {
        out[i] = u16::from(*level);
    }
}

// A row comes below two: it completes a row of the next pass, and takes the place of the older one.
fn pass(two: &mut [u16], place: Place, late: usize, row: &[u16], out: &mut [u16])
    requires { Below place.width place.k late two.old row.now × (long place.width place.height place.k late ≤ length out.old) }
    ensures two_after { two.new ≡ replaced place.width place.k two.old row.now }
    ensures out_after { out.new ≡ completed (last_two place.width place.height place.k late two.old) row.now ++ drop (long place.width place.height place.k late) out.old }
{
    complete(two, place, late, row, out);
    put(two, place.k % 2 * place.width, row);
}

// The row of the next pass, at the front of `out`: row k − late, if the picture has one. The two rows are
// read where they lie. What is asked of the arguments is all that the filter could refuse a row for, so
// it answers `Ok`.
fn complete(two: &[u16], place: Place, late: usize, row: &[u16], out: &mut [u16])
    requires { Below place.width place.k late two.now row.now × (long place.width place.height place.k late ≤ length out.old) }
    ensures { out.new ≡ completed (last_two place.width place.height place.k late two.now) row.now ++ drop (long place.width place.height place.k late) out.old }
{
    let n = long(place, late);
    if n == 0 {
        return;
    }
    let older = place.k % 2 * place.width;
    let newer = (place.k + 1) % 2 * place.width;
    let older_end = older + long(place, late + 1);
    let newer_end = newer + n;
    let _done = filter::row(&two[older..older_end], &two[newer..newer_end], row, out);
}

// Writes a row over what lies from `at` on. (By `copy_from_slice` the C library would need memmove, besides memcpy and memset.)
fn put(rows: &mut [u16], at: usize, row: &[u16])
    requires { at + length row.now ≤ length rows.old }
    ensures { rows.new ≡ over rows.old at row.now }
{
    for (i, &value) in row.iter().enumerate() {
        rows[at + i] = value;
    }
}
