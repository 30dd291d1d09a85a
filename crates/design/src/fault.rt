// The refusals of the calls on designs.
ghost use Rattle.std.specs.Prelude.{◌≡◌, ℕ};
ghost use Rattle.design.specs.Faults.{design_number, design_layer, design_place};
ghost use Rattle.design.specs.Offers.{fault_of};
ghost use Rattle.design.specs.declared.fault.DesignFault.TheVariants.{Field};

use fields::fault::{FieldFault, Layer, Refusal};
use judging::objection::Objection;
use std::error::Error;
use std::fmt;

#[derive(Clone, Copy, PartialEq, Eq, Debug)]
pub enum DesignFault {
    // A table has not its exact length.
    TableLength,
    // The number of generators is not from 2 to 8.
    GeneratorCount,
    // There is no generator of that number.
    NoSuchGenerator,
    // The power is above 16.
    PowerTooHigh,
    // Every generator is zero.
    AllZero,
    // The generators times column 0 of an offered frame are not their divisor.
    FirstColumn,
    // The generators times this check column of an offered frame, the lowest such, are not zero.
    CheckColumn(usize),
    // A check column of an offered frame is zero, their degrees fall or do not add up, or their leading vectors are dependent.
    ColumnDegrees,
    // The leading vector of column 0 of an offered frame is a combination of those of check columns of no higher degree.
    LeadingVector,
    // The field refuses the code.
    Field(FieldFault),
}

// A refusal, with the design that was brought.
#[derive(Drop)]
pub struct HandedBack<T: Drop> {
    pub design: T,
    pub fault: DesignFault,
}

impl<T: Drop> HandedBack<T> {
    // A call is one line at each of its five uses, where the literal is four.
    pub(crate) fn of(design: T, fault: DesignFault) -> HandedBack<T>
        ensures { (result.design ≡ design) × (result.fault ≡ fault) }
    {
        HandedBack { design, fault }
    }
}

// Arm by arm, here and in `Display`: each refusal has a number and a text of its own, and both are printed.
impl Refusal for DesignFault {
    ghost numbered = { design_number };

    ghost layered = { design_layer };

    ghost placed = { design_place };

    fn number(&self) -> u8 {
        match self {
            DesignFault::TableLength => 1,
            DesignFault::GeneratorCount => 2,
            DesignFault::NoSuchGenerator => 3,
            DesignFault::PowerTooHigh => 4,
            DesignFault::AllZero => 6,
            DesignFault::FirstColumn => 7,
            DesignFault::CheckColumn(_) => 8,
            DesignFault::ColumnDegrees => 9,
            DesignFault::LeadingVector => 10,
            DesignFault::Field(fault) => fault.number(),
        }
    }

    fn layer(&self) -> Layer {
        match self {
            DesignFault::Field(fault) => fault.layer(),
            _ => Layer::Design,
        }
    }

    fn place(&self) -> usize {
        match self {
            DesignFault::CheckColumn(j) => *j,
            DesignFault::Field(fault) => fault.place(),
            _ => 0,
        }
    }
}

impl From<FieldFault> for DesignFault {
    ghost from_gives = { λ f r. r ≡ Field f };

    fn from(fault: FieldFault) -> DesignFault {
        Self::Field(fault)
    }
}

impl From<Objection> for DesignFault {
    ghost from_gives = { λ x f. f ≡ fault_of x };

    fn from(objection: Objection) -> DesignFault {
        match objection {
            Objection::AllZero => Self::AllZero,
            Objection::First => Self::FirstColumn,
            Objection::Check(j) => Self::CheckColumn(j),
            Objection::Degrees => Self::ColumnDegrees,
            Objection::Leading => Self::LeadingVector,
        }
    }
}

impl fmt::Display for DesignFault {
    fn fmt<W: fmt::Write>(&self, f: &mut fmt::Formatter<W>) -> fmt::Result {
        match self {
            DesignFault::TableLength => write!(f, "a table has not its exact length"),
            DesignFault::GeneratorCount => write!(f, "the number of generators is not from 2 to 8"),
            DesignFault::NoSuchGenerator => write!(f, "there is no generator of that number"),
            DesignFault::PowerTooHigh => write!(f, "the power is above 16"),
            DesignFault::AllZero => write!(f, "every generator is zero"),
            DesignFault::FirstColumn => {
                write!(f, "the generators times column 0 are not their divisor")
            }
            DesignFault::CheckColumn(j) => {
                write!(f, "the generators times column {j} are not zero")
            }
            DesignFault::ColumnDegrees => write!(
                f,
                "the degrees or the leading vectors of the check columns are not those of a frame"
            ),
            DesignFault::LeadingVector => {
                write!(f, "column 0 can be shortened by check columns")
            }
            DesignFault::Field(fault) => write!(f, "{fault}"),
        }
    }
}

impl Error for DesignFault {}
