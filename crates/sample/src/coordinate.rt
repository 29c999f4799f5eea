// A place, one coordinate at a time.
ghost use Rattle.std.specs.Prelude.{◌≡◌, ◌<◌, true, false};

use units::Sixteenths;

// One coordinate of a place: its column or row, and how many sixteenths of a pixel it lies past it.
#[derive(Clone, Copy)]
pub(crate) struct Coordinate {
    pub(crate) pixel: usize,
    pub(crate) remainder: u64,
    ghost sixteenths: { remainder < 16 },
}

impl Coordinate {
    ghost use Rattle.answers.specs.Refusals.{Unless};
    ghost use Rattle.sample.specs.Asked.{Surrounded, Located};

    // Takes a coordinate apart. Left of the picture, or above it, the pixel is 0, which has no sample
    // either.
    pub(crate) fn of(place: Sixteenths) -> Self
        ensures { Located place result }
    {
        let n = arithmetic::natural(place.amount());
        Coordinate {
            pixel: (n / 16) as usize,
            remainder: n % 16,
        }
    }

    // Whether its pixel has one before it and two after it among the pixels of a side.
    pub(crate) fn surrounded(self, side: usize) -> bool
        ensures { Unless (Surrounded side self.pixel) (result ≡ false) (result ≡ true) }
    {
        (1..side.saturating_sub(2)).contains(&self.pixel)
    }
}
