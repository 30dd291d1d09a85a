// The refusals of the calls on the link.
ghost use Rattle.std.specs.Prelude.{◌≡◌};
ghost use Rattle.link.specs.Faults.{link_number, link_layer, link_place};
ghost use Rattle.link.specs.declared.fault.LinkFault.TheVariants.{Design};

use design::fault::DesignFault;
use fields::fault::{Layer, Refusal};
use std::error::Error;
use std::fmt;

#[derive(Clone, Copy, PartialEq, Eq, Debug)]
pub enum LinkFault {
    // A rule of the design: a table has not its length.
    Design(DesignFault),
    // The divisor is not 1.
    Divisor,
    // The message or the block has not its length.
    Length,
}

// Arm by arm, here and in `Display`: each refusal has a number and a text of its own, and both are printed.
impl Refusal for LinkFault {
    ghost numbered = { link_number };

    ghost layered = { link_layer };

    ghost placed = { link_place };

    fn number(&self) -> u8 {
        match self {
            LinkFault::Design(fault) => fault.number(),
            LinkFault::Divisor => 11,
            LinkFault::Length => 12,
        }
    }

    fn layer(&self) -> Layer {
        match self {
            LinkFault::Design(fault) => fault.layer(),
            _ => Layer::Link,
        }
    }

    fn place(&self) -> usize {
        match self {
            LinkFault::Design(fault) => fault.place(),
            _ => 0,
        }
    }
}

impl From<DesignFault> for LinkFault {
    ghost from_gives = { λ f r. r ≡ Design f };

    fn from(fault: DesignFault) -> LinkFault {
        Self::Design(fault)
    }
}

impl fmt::Display for LinkFault {
    fn fmt<W: fmt::Write>(&self, f: &mut fmt::Formatter<W>) -> fmt::Result {
        match self {
            LinkFault::Design(fault) => write!(f, "{fault}"),
            LinkFault::Divisor => write!(f, "the divisor is not 1"),
            LinkFault::Length => write!(f, "the message or the block has not its length"),
        }
    }
}

impl Error for LinkFault {}
