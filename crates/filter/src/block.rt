// A pixel's block: the levels around it that lie inside the picture, gathered row by row, and their
// median. The loops, here and in median.rt, have small fixed numbers of turns once a caller's numbers
// are known, so that the compiler unrolls them and works on several columns at once.
ghost use Rattle.std.specs.Prelude.{◌≡◌, ◌++◌, ◌+◌, ◌≤◌, length, take};
ghost use Rattle.std.proofs.Math.Seq.{slice};
ghost use Rattle.filter.specs.Median.{twice_median};
ghost use Rattle.filter.specs.Asked.{SomeColumns, lists, columns_of};

use crate::median;

// Twice the median of some columns of one, two or three rows, the first N of `rows`. The array comes
// itself, not behind a reference: so where the rows lie is known to the loop over the columns.
pub(crate) fn of_rows<const N: usize>(rows: [&[u16]; 3], first: usize, count: usize) -> u16
    requires some { (1 ≤ N) × (N ≤ 3) }
    requires columns { SomeColumns N (lists rows) first count }
    ensures { result ≡ twice_median (columns_of (take N (lists rows.entry)) first (first + count)) }
{
    let mut t = [0u16; 9];
    for j in 0..N {
        gather(&mut t, j * count, rows[j], first, count);
    }
    median::twice(&t[..N * count])
}

// Some columns of a row, put behind the first n of t.
fn gather(t: &mut [u16], n: usize, row: &[u16], first: usize, count: usize)
    requires { (n + count ≤ length t.old) × (first + count ≤ length row.now) }
    ensures { take (n + count) t.new ≡ take n t.old ++ slice first (first + count) row.now }
{
    t[n..n + count].copy_from_slice(&row[first..first + count]);
}
