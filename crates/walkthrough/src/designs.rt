// The designs that are entered, by the codes of their nonzero coefficients.
ghost use Rattle.std.specs.Prelude.{◌≡◌};
ghost use Rattle.history.specs.declared.request.Request.TheVariants.{Put};

use frames::row::{DIVISOR, ROW, divide_by_gcd};
use history::request::Request;
use std::fmt;
use tables::sizes::{GENERATORS, WIDTH, WORK};
use texts::polynomial::{PolynomialText, RowText};
use tones::Tone;

// A coefficient as it is entered: the numbers of a put.
#[derive(Clone, Copy)]
pub struct Entry {
    pub i: usize,
    pub power: usize,
    pub code: u32,
}

impl From<Entry> for Request<Tone> {
    ghost from_gives = { λ e r. r ≡ Put e.i e.power e.code };

    fn from(entry: Entry) -> Request<Tone> {
        Request::Put {
            i: entry.i,
            power: entry.power,
            code: entry.code,
        }
    }
}

impl fmt::Display for Entry {
    fn fmt<W: fmt::Write>(&self, f: &mut fmt::Formatter<W>) -> fmt::Result {
        let Entry { i, power, code } = self;
        write!(f, "put code {code} at power {power} of generator {i}")
    }
}

// The design (s^2, 1 + s).
pub const DESIGN: [Entry; 3] = [
    Entry {
        i: 0,
        power: 2,
        code: 1,
    },
    Entry {
        i: 1,
        power: 0,
        code: 1,
    },
    Entry {
        i: 1,
        power: 1,
        code: 1,
    },
];

// The design (s^2, s + s^2).
pub const SHARED: [Entry; 3] = [
    Entry {
        i: 0,
        power: 2,
        code: 1,
    },
    Entry {
        i: 1,
        power: 1,
        code: 1,
    },
    Entry {
        i: 1,
        power: 2,
        code: 1,
    },
];

// The message that is sent.
pub const SENT: [Tone; 2] = [Tone::T3, Tone::T1];

// The hit: the place in the block of SENT over DESIGN, and the symbol that stands there afterwards.
pub const HIT: (usize, Tone) = (3, Tone::T9);

// How long the block of SENT is over DESIGN, and over SHARED: two streams, each as long as the message and the design's degree.
pub const DESIGN_BLOCK: usize = 2 * (SENT.len() + 2);

pub const SHARED_BLOCK: usize = 2 * (SENT.len() + 1);

// Two slips of the hand.
pub const SLIPS: [Entry; 2] = [
    Entry {
        i: 1,
        power: 17,
        code: 1,
    },
    Entry {
        i: 0,
        power: 0,
        code: 31,
    },
];

// The divisor that two generators share, and their row divided by it.
#[derive(Drop)]
pub struct DivisorText<'a> {
    pub generators: &'a [Tone; GENERATORS],
}

impl fmt::Display for DivisorText<'_> {
    fn fmt<W: fmt::Write>(&self, f: &mut fmt::Formatter<W>) -> fmt::Result {
        let generators = self.generators;
        let mut work = [Tone::T0; WORK];
        if divide_by_gcd(2, generators, &mut work).is_none() {
            return write!(f, "Every generator is zero.");
        }
        let divisor = PolynomialText {
            coefficients: &work[DIVISOR..ROW],
        };
        let row = RowText {
            row: &work[ROW..ROW + 2 * WIDTH],
        };
        write!(
            f,
            "Its divisor is {divisor}, and divided by it the row is {row}."
        )
    }
}
