// What is never mixed (document 01: "Pixels, picometres and eighths of a level are kept apart").
// Each unit is a type of its own, and its number stands in a private field: another crate makes one
// with `of` and takes it apart with `amount`, in a conversion, and in no other way. (Document 01 names a tuple
// struct for each of the three, so they are no instances of one generic type.)
#![tactic(auto)]

ghost use Rattle.std.specs.Prelude.{◌≡◌};
ghost use Rattle.units.specs.Units.{sixteenths, picometres, eighths};

// A place or a distance in the picture, in sixteenths of a pixel. Left of the picture, or above it,
// a place is negative.
#[derive(Clone, Copy)]
pub struct Sixteenths(i64);

// A length on the specimen, in picometres.
#[derive(Clone, Copy)]
pub struct Picometres(u64);

// A level, or a sum of levels, in eighths of a level.
#[derive(Clone, Copy)]
pub struct Eighths(u64);

impl Sixteenths {
    // So many sixteenths of a pixel.
    pub fn of(n: i64) -> Self
        ensures { result ≡ sixteenths n }
    {
        Sixteenths(n)
    }

    // How many sixteenths of a pixel they are.
    pub fn amount(self) -> i64
        ensures { result ≡ self.0 }
    {
        self.0 // the only place where sixteenths become a plain number
    }
}

impl Picometres {
    // So many picometres.
    pub fn of(n: u64) -> Self
        ensures { result ≡ picometres n }
    {
        Picometres(n)
    }

    // How many picometres they are.
    pub fn amount(self) -> u64
        ensures { result ≡ self.0 }
    {
        self.0 // the only place where picometres become a plain number
    }
}

impl Eighths {
    // So many eighths of a level.
    pub fn of(n: u64) -> Self
        ensures { result ≡ eighths n }
    {
        Eighths(n)
    }

    // How many eighths of a level they are.
    pub fn amount(self) -> u64
        ensures { result ≡ self.0 }
    {
        self.0 // the only place where eighths become a plain number
    }
}
