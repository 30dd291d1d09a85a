// The refusals of reading a card.
ghost use Rattle.std.specs.Prelude.{◌≡◌};
ghost use Rattle.cards.specs.Faults.{card_number, card_layer, card_place};
ghost use Rattle.cards.specs.declared.fault.CardFault.TheVariants.{Design, Field};

use design::fault::DesignFault;
use fields::fault::{FieldFault, Layer, Refusal};
use std::error::Error;
use std::fmt;

// Questions 2 and 4 are the design's too; asked of a card, they carry the card's layer.
#[derive(Clone, Copy, PartialEq, Eq, Debug)]
pub enum CardFault {
    // A rule of the design: a table has not its length.
    Design(DesignFault),
    // The number of bytes is not what n and m say.
    Length,
    // The kind is another field's.
    Kind,
    // The number of generators is not from 2 to 8.
    GeneratorCount,
    // A power is above 16.
    PowerTooHigh { place: usize },
    // A power is not above the one before it in its chain.
    PowerNotAbove { place: usize },
    // The field refuses a code.
    Field { fault: FieldFault, place: usize },
    // A code is zero.
    ZeroCode { place: usize },
    // A head or a next is above m.
    NoSuchRecord { place: usize },
}

// A field's fault, with the byte of the card where it was met.
#[derive(Clone, Copy)]
pub struct PlacedFault {
    pub fault: FieldFault,
    pub place: usize,
}

// Arm by arm, here and in `Display`: each refusal has a number and a text of its own, and both are printed.
impl Refusal for CardFault {
    ghost numbered = { card_number };

    ghost layered = { card_layer };

    ghost placed = { card_place };

    fn number(&self) -> u8 {
        match self {
            CardFault::Design(fault) => fault.number(),
            CardFault::GeneratorCount => 2,
            CardFault::PowerTooHigh { .. } => 4,
            CardFault::Field { fault, .. } => fault.number(),
            CardFault::Length => 13,
            CardFault::Kind => 14,
            CardFault::NoSuchRecord { .. } => 15,
            CardFault::PowerNotAbove { .. } => 16,
            CardFault::ZeroCode { .. } => 17,
        }
    }

    fn layer(&self) -> Layer {
        match self {
            CardFault::Design(fault) => fault.layer(),
            CardFault::Field { fault, .. } => fault.layer(),
            _ => Layer::Card,
        }
    }

    fn place(&self) -> usize {
        match self {
            CardFault::Design(fault) => fault.place(),
            CardFault::PowerTooHigh { place }
            | CardFault::PowerNotAbove { place }
            | CardFault::Field { place, .. }
            | CardFault::ZeroCode { place }
            | CardFault::NoSuchRecord { place } => *place,
            _ => 0,
        }
    }
}

impl From<DesignFault> for CardFault {
    ghost from_gives = { λ f r. r ≡ Design f };

    fn from(fault: DesignFault) -> CardFault {
        Self::Design(fault)
    }
}

impl From<PlacedFault> for CardFault {
    ghost from_gives = { λ f r. r ≡ Field f.fault f.place };

    fn from(met: PlacedFault) -> CardFault {
        Self::Field {
            fault: met.fault,
            place: met.place,
        }
    }
}

impl fmt::Display for CardFault {
    fn fmt<W: fmt::Write>(&self, f: &mut fmt::Formatter<W>) -> fmt::Result {
        match self {
            CardFault::Design(fault) => write!(f, "{fault}"),
            CardFault::Length => write!(f, "the card has not the length that its n and m say"),
            CardFault::Kind => write!(f, "the card is of another field"),
            CardFault::GeneratorCount => write!(f, "the number of generators is not from 2 to 8"),
            CardFault::PowerTooHigh { .. } => write!(f, "the power is above 16"),
            CardFault::PowerNotAbove { .. } => write!(
                f,
                "the power is not above the one before it"
            ),
            CardFault::Field { fault, .. } => write!(f, "{fault}"),
            CardFault::ZeroCode { .. } => write!(f, "the code is zero"),
            CardFault::NoSuchRecord { .. } => write!(f, "there is no record of that number"),
        }
    }
}

impl Error for CardFault {}
