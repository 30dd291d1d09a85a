// Nibbles: the field of 16 members, polynomials of degree below 4 over the bits, reduced by x^4 + x + 1.
#![tactic(auto)]

ghost use Rattle.std.specs.Prelude.{◌≡◌, ◌<◌, get_or};
ghost use Rattle.nibbles.specs.Nibbles.{code_of, nibble_of, nibble_ops};
ghost use Rattle.nibbles.specs.Tables.{entry, inverses};
ghost use Rattle.nibbles.specs.declared.Nibble.{Nibble};
ghost use Rattle.nibbles.specs.NibblesLemmas.{nibble_field, nibble_invertible, nibble_numbering};

use fields::fault::FieldFault;
use fields::field::Field;

pub mod quadratic;

// The code k is the variant Nk. The size stays a number: it is wanted as usize, u16 and u32, and a name would need a conversion at each
// use.
#[derive(Clone, Copy, PartialEq, Eq, Debug)]
pub enum Nibble {
    N0,
    N1,
    N2,
    N3,
    N4,
    N5,
    N6,
    N7,
    N8,
    N9,
    N10,
    N11,
    N12,
    N13,
    N14,
    N15,
}

// The code of each product: row by the code of one factor, column by that of the other.
static PRODUCTS: [[u16; 16]; 16] = [
    [0, 0, 0, 0, 0, 0, 0, 0, 0, 0, 0, 0, 0, 0, 0, 0],
    [0, 1, 2, 3, 4, 5, 6, 7, 8, 9, 10, 11, 12, 13, 14, 15],
    [0, 2, 4, 6, 8, 10, 12, 14, 3, 1, 7, 5, 11, 9, 15, 13],
    [0, 3, 6, 5, 12, 15, 10, 9, 11, 8, 13, 14, 7, 4, 1, 2],
    [0, 4, 8, 12, 3, 7, 11, 15, 6, 2, 14, 10, 5, 1, 13, 9],
    [0, 5, 10, 15, 7, 2, 13, 8, 14, 11, 4, 1, 9, 12, 3, 6],
    [0, 6, 12, 10, 11, 13, 7, 1, 5, 3, 9, 15, 14, 8, 2, 4],
    [0, 7, 14, 9, 15, 8, 1, 6, 13, 10, 3, 4, 2, 5, 12, 11],
    [0, 8, 3, 11, 6, 14, 5, 13, 12, 4, 15, 7, 10, 2, 9, 1],
    [0, 9, 1, 8, 2, 11, 3, 10, 4, 13, 5, 12, 6, 15, 7, 14],
    [0, 10, 7, 13, 14, 4, 9, 3, 15, 5, 8, 2, 1, 11, 6, 12],
    [0, 11, 5, 14, 10, 1, 15, 4, 7, 12, 2, 9, 13, 6, 8, 3],
    [0, 12, 11, 7, 5, 9, 14, 2, 10, 6, 1, 13, 15, 3, 4, 8],
    [0, 13, 9, 4, 1, 12, 8, 5, 2, 15, 11, 6, 3, 14, 10, 7],
    [0, 14, 15, 1, 13, 3, 2, 12, 9, 7, 6, 8, 4, 10, 11, 5],
    [0, 15, 13, 2, 9, 6, 4, 11, 1, 14, 12, 3, 8, 7, 5, 10],
];

// The code of each inverse; 0 has none.
static INVERSES: [u16; 16] = [0, 1, 9, 14, 13, 11, 7, 6, 15, 2, 12, 5, 10, 4, 3, 8];

// The nibble of a number's four low bits. Read from a table of the 16 variants, products took nearly twice the time.
fn low_bits(number: u16) -> Nibble
    ensures { result ≡ nibble_of number }
{
    match number % 16 {
        1 => Nibble::N1,
        2 => Nibble::N2,
        3 => Nibble::N3,
        4 => Nibble::N4,
        5 => Nibble::N5,
        6 => Nibble::N6,
        7 => Nibble::N7,
        8 => Nibble::N8,
        9 => Nibble::N9,
        10 => Nibble::N10,
        11 => Nibble::N11,
        12 => Nibble::N12,
        13 => Nibble::N13,
        14 => Nibble::N14,
        15 => Nibble::N15,
        _ => Nibble::N0,
    }
}

// The code of a product.
fn product_number(left: u16, right: u16) -> u16
    requires { (left < 16) × (right < 16) }
    ensures { result ≡ entry left right }
{
    PRODUCTS[usize::from(left)][usize::from(right)]
}

// The code of an inverse. A function shared with tones would be handed this table, and would be no shorter.
fn inverse_number(number: u16) -> u16
    requires { number < 16 }
    ensures { result ≡ get_or inverses number 0 }
{
    INVERSES[usize::from(number)]
}

impl From<Nibble> for u16 {
    ghost from_gives = { λ x r. (r ≡ code_of x) × (r < 16) };

    fn from(nibble: Nibble) -> u16 {
        nibble as u16
    }
}

impl Field for Nibble {
    ghost Member = { Nibble };

    ghost ops = { nibble_ops };

    ghost member = { λ x. x };

    ghost order = { 16 };

    ghost number = { code_of };

    ghost tag = { 2 };

    ghost laws = { nibble_field };

    ghost invertible = { nibble_invertible };

    ghost numbered = { nibble_numbering };

    fn zero() -> Nibble {
        Nibble::N0
    }

    fn one() -> Nibble {
        Nibble::N1
    }

    fn add(self, other: Nibble) -> Nibble {
        low_bits(u16::from(self) ^ u16::from(other))
    }

    fn negate(self) -> Nibble {
        self
    }

    fn multiply(self, other: Nibble) -> Nibble {
        low_bits(product_number(u16::from(self), u16::from(other)))
    }

    // This and `element` stand in tones too: four lines on each field's own numbers, which a shared form would have to be handed.
    fn inverse(self) -> Option<Nibble> {
        match self {
            Nibble::N0 => None,
            _ => Some(low_bits(inverse_number(u16::from(self)))),
        }
    }

    fn same(self, other: Nibble) -> bool {
        self == other
    }

    fn size() -> u32 {
        16
    }

    fn code(self) -> u16 {
        self.into()
    }

    // The cast is proved to lose nothing; `try_from` would need an `unwrap`.
    fn element(code: u32) -> Result<Nibble, FieldFault> {
        if code < 16 {
            Ok(low_bits(code as u16))
        } else {
            Err(FieldFault::CodeTooLarge)
        }
    }

    fn kind() -> u8 {
        2
    }
}
