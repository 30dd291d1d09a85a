// Tones: residues modulo 31, as an enumeration of the 31 members.
#![tactic(auto)]

ghost use Rattle.std.specs.Prelude.{◌≡◌, ◌<◌, ◌%◌, get_or};
ghost use Rattle.tones.specs.Tones.{number_of, tone_of, tone_ops, inverses};
ghost use Rattle.tones.specs.declared.Tone.{Tone};
ghost use Rattle.tones.specs.TonesLemmas.{tone_field, tone_invertible, tone_numbering};

use fields::fault::FieldFault;
use fields::field::Field;

pub mod quadratic;

// The tones' kind on cards.
const KIND: u8 = 1;

// The residue k is the variant Tk. The size stays a number: it is wanted as usize, u16 and u32, and a name would need a conversion at each
// use.
#[derive(Clone, Copy, PartialEq, Eq, Debug)]
pub enum Tone {
    T0,
    T1,
    T2,
    T3,
    T4,
    T5,
    T6,
    T7,
    T8,
    T9,
    T10,
    T11,
    T12,
    T13,
    T14,
    T15,
    T16,
    T17,
    T18,
    T19,
    T20,
    T21,
    T22,
    T23,
    T24,
    T25,
    T26,
    T27,
    T28,
    T29,
    T30,
}

// The number of each residue's inverse; 0 has none.
static INVERSES: [u16; 31] = [
    0, 1, 16, 21, 8, 25, 26, 9, 4, 7, 28, 17, 13, 12, 20, 29, 2, 11, 19, 18, 14, 3, 24, 27, 22, 5,
    6, 23, 10, 15, 30,
];

// The tone of a number below 31. With `_` for the first variant each use kept a comparison, and read from a table of the 31 variants products took
// half as long again.
fn nth(number: u16) -> Tone
    requires { number < 31 }
    ensures value { result ≡ tone_of number }
    ensures remainder { number_of result ≡ number }
{
    match number {
        0 => Tone::T0,
        1 => Tone::T1,
        2 => Tone::T2,
        3 => Tone::T3,
        4 => Tone::T4,
        5 => Tone::T5,
        6 => Tone::T6,
        7 => Tone::T7,
        8 => Tone::T8,
        9 => Tone::T9,
        10 => Tone::T10,
        11 => Tone::T11,
        12 => Tone::T12,
        13 => Tone::T13,
        14 => Tone::T14,
        15 => Tone::T15,
        16 => Tone::T16,
        17 => Tone::T17,
        18 => Tone::T18,
        19 => Tone::T19,
        20 => Tone::T20,
        21 => Tone::T21,
        22 => Tone::T22,
        23 => Tone::T23,
        24 => Tone::T24,
        25 => Tone::T25,
        26 => Tone::T26,
        27 => Tone::T27,
        28 => Tone::T28,
        29 => Tone::T29,
        30 => Tone::T30,
        _ => unreachable!(),
    }
}

// The tone of a number's residue modulo 31.
fn residue(number: u16) -> Tone
    ensures value { result ≡ tone_of number }
    ensures remainder { number_of result ≡ number % 31 }
{
    nth(number % 31)
}

// The number of a tone's inverse. A function shared with nibbles would be handed this table, and would be no shorter.
fn inverse_number(number: u16) -> u16
    requires { number < 31 }
    ensures { result ≡ get_or inverses number 0 }
{
    INVERSES[usize::from(number)]
}

impl From<Tone> for u16 {
    ghost from_gives = { λ x r. (r ≡ number_of x) × (r < 31) };

    fn from(tone: Tone) -> u16 {
        // The remainder changes nothing: it shows the compiler that the number is small, so that what is taken modulo 31 needs fewer steps.
        tone as u16 % 32
    }
}

impl Field for Tone {
    ghost Member = { Tone };

    ghost ops = { tone_ops };

    ghost member = { λ x. x };

    ghost order = { 31 };

    ghost number = { number_of };

    ghost tag = { 1 };

    ghost laws = { tone_field };

    ghost invertible = { tone_invertible };

    ghost numbered = { tone_numbering };

    fn zero() -> Tone {
        residue(0)
    }

    fn one() -> Tone {
        residue(1)
    }

    fn add(self, other: Tone) -> Tone {
        residue(u16::from(self) + u16::from(other))
    }

    fn negate(self) -> Tone {
        residue(31 - u16::from(self))
    }

    fn multiply(self, other: Tone) -> Tone {
        residue(u16::from(self) * u16::from(other))
    }

    // This and `element` stand in nibbles too: four lines on each field's own numbers, which a shared form would have to be handed.
    fn inverse(self) -> Option<Tone> {
        match self {
            Tone::T0 => None,
            _ => Some(residue(inverse_number(u16::from(self)))),
        }
    }

    fn same(self, other: Tone) -> bool {
        self == other
    }

    fn size() -> u32 {
        31
    }

    fn code(self) -> u16 {
        self.into()
    }

    // The cast is proved to lose nothing; `try_from` would need an `unwrap`.
    fn element(code: u32) -> Result<Tone, FieldFault> {
        if code < 31 {
            Ok(residue(code as u16))
        } else {
            Err(FieldFault::CodeTooLarge)
        }
    }

    fn kind() -> u8 {
        KIND
    }
}
