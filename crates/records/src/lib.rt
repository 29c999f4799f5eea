// The records of the program's input (document 01, "The program"): which one begins at an offset.
#![tactic(auto)]

ghost use Rattle.std.specs.Prelude.{◌≡◌, ◌+◌, ◌≤◌, length};
ghost use Rattle.arithmetic.specs.Bytes.{four_bytes};
ghost use Rattle.records.specs.Records.{KindIs, byte_of, body_length, good_answer, by_kind, RecordIs};
ghost use Rattle.units.specs.Units.{picometres};

use answers::Refusal;
use units::Picometres;

// A good record. Its body lies from `start` up to, not at, `end`, where the next record begins.
#[derive(Clone, Copy)]
pub enum Record {
    // A picture of `side` rows of `side` levels; the body is its levels.
    Picture {
        side: usize,
        start: usize,
        end: usize,
    },
    // The size of a pixel.
    Pixel {
        size: Picometres,
        end: usize,
    },
}

// A record that is refused, by 16 or 17, with the offset of its kind byte; or an input that is too long,
// by 18, with 32,768.
#[derive(Clone, Copy, Debug, PartialEq, Eq)]
pub struct Faulty {
    pub why: Refusal,
    pub offset: usize,
}

// The record at an offset of the input, and none where the input ends there. Refused by 18 where the input
// has more than 32,768 bytes, by 16 where the byte there is no kind, by 17 where the input ends before the
// record's body does.
pub fn record_at(input: &[u8], at: usize) -> Result<Option<Record>, Faulty>
    ensures { RecordIs input.now at result }
{
    if 32_768 < input.len() {
        return Err(Faulty {
            why: Refusal::LongInput,
            offset: 32_768,
        });
    }
    if input.len() <= at {
        return Ok(None);
    }
    let kind = match Kind::try_from(input[at]) {
        Ok(kind) => kind,
        Err(why) => return Err(Faulty { why, offset: at }),
    };
    let start = at + 1;
    let end = start + kind.body_length();
    if input.len() < end {
        return Err(Faulty {
            why: Refusal::ShortBody,
            offset: at,
        });
    }
    Ok(Some(kind.read(input, start, end)))
}

// What a record's kind byte says that it is.
#[derive(Clone, Copy)]
enum Kind {
    SmallPicture,
    LargePicture,
    PixelSize,
}

impl TryFrom<u8> for Kind {
    type Error = Refusal;

    ghost try_from_gives = { KindIs };

    fn try_from(byte: u8) -> Result<Kind, Refusal> {
        match byte {
            1 => Ok(Kind::SmallPicture),
            2 => Ok(Kind::LargePicture),
            3 => Ok(Kind::PixelSize),
            _ => Err(Refusal::UnknownKind),
        }
    }
}

impl Kind {
    // How many bytes the body of a record has.
    fn body_length(self) -> usize
        ensures { result ≡ body_length (byte_of self) }
    {
        match self {
            Kind::SmallPicture => 256,
            Kind::LargePicture => 4_096,
            Kind::PixelSize => 4,
        }
    }

    // A record whose body is all there.
    fn read(self, input: &[u8], start: usize, end: usize) -> Record
        requires { (end ≡ start + body_length (byte_of self)) × (end ≤ length input.now) }
        ensures { good_answer result ≡ by_kind input.now (byte_of self) start end }
    {
        match self {
            Kind::SmallPicture => Record::Picture {
                side: 16,
                start,
                end,
            },
            Kind::LargePicture => Record::Picture {
                side: 64,
                start,
                end,
            },
            Kind::PixelSize => Record::Pixel {
                size: pixel_size(input, start),
                end,
            },
        }
    }
}

// The size of a pixel: four bytes, the low one first. (`try_into` would give a `Result` that cannot fail.)
fn pixel_size(input: &[u8], start: usize) -> Picometres
    requires { start + 4 ≤ length input.now }
    ensures { result ≡ picometres (four_bytes input.now start) }
{
    let bytes = [
        input[start],
        input[start + 1],
        input[start + 2],
        input[start + 3],
    ];
    Picometres::of(u64::from(u32::from_le_bytes(bytes)))
}
