// Lengths and places: two of them. (As in values.rt, for another type: std's methods, with a promise in plain numbers.)
ghost use Rattle.std.specs.Prelude.{◌≡◌, ◌-◌, min};

// The smaller of two.
pub fn smaller(a: usize, b: usize) -> usize
    ensures { result ≡ min a b }
{
    a.min(b)
}

// a less b; 0 where b is more.
pub fn less(a: usize, b: usize) -> usize
    ensures { result ≡ a - b }
{
    a.saturating_sub(b)
}
