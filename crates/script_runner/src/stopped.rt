// Why a call of a script did nothing.
ghost use Rattle.std.specs.Prelude.{◌≡◌};
ghost use Rattle.script_runner.specs.declared.stopped.Stopped.TheVariants.{NoMemory, Field};

use cards::fault::CardFault;
use design::fault::DesignFault;
use fields::fault::{FieldFault, Refusal};
use history::perform::Unperformed;
use history::request::Design;
use link::fault::LinkFault;
use std::alloc::{AllocError, AllocFailed};
use std::fmt;

// Why a call is not admitted.
#[derive(Clone, Copy, PartialEq, Eq, Debug)]
pub enum Reason {
    NoDesign,
    Draft,
    Framed,
}

impl Reason {
    // Why a call is not admitted that wants the other kind of design.
    pub(crate) fn of(design: &Design) -> Reason {
        match design {
            Design::Draft(_) => Reason::Draft,
            Design::Framed(_) => Reason::Framed,
        }
    }
}

impl fmt::Display for Reason {
    fn fmt<W: fmt::Write>(&self, f: &mut fmt::Formatter<W>) -> fmt::Result {
        match self {
            Reason::NoDesign => write!(f, "there is no design"),
            Reason::Draft => write!(f, "the design is a draft"),
            Reason::Framed => write!(f, "the design is framed"),
        }
    }
}

// Why a call did nothing: memory is wanting, it is not admitted, or a layer refuses it.
#[derive(Clone, Copy, Debug)]
pub enum Stopped {
    NoMemory,
    NotAdmitted(Reason),
    Field(FieldFault),
    Design(DesignFault),
    Link(LinkFault),
    Card(CardFault),
}

impl From<AllocError> for Stopped {
    fn from(_refused: AllocError) -> Stopped {
        Stopped::NoMemory
    }
}

impl<T: Drop> From<AllocFailed<T>> for Stopped {
    ghost from_gives = { λ _ r. r ≡ NoMemory };

    fn from(_refused: AllocFailed<T>) -> Stopped {
        Stopped::NoMemory
    }
}

impl<F: Drop> From<Unperformed<F>> for Stopped {
    fn from(_left: Unperformed<F>) -> Stopped {
        Stopped::NoMemory
    }
}

impl From<Reason> for Stopped {
    fn from(reason: Reason) -> Stopped {
        Stopped::NotAdmitted(reason)
    }
}

impl From<FieldFault> for Stopped {
    ghost from_gives = { λ f r. r ≡ Field f };

    fn from(fault: FieldFault) -> Stopped {
        Stopped::Field(fault)
    }
}

impl From<DesignFault> for Stopped {
    fn from(fault: DesignFault) -> Stopped {
        Stopped::Design(fault)
    }
}

impl From<LinkFault> for Stopped {
    fn from(fault: LinkFault) -> Stopped {
        Stopped::Link(fault)
    }
}

impl From<CardFault> for Stopped {
    fn from(fault: CardFault) -> Stopped {
        Stopped::Card(fault)
    }
}

// Writes a refusal: its number, layer, place and reason. `RefusalText` puts commas between these, and a script's line none.
fn write_refusal<W: fmt::Write, E: Refusal + fmt::Display>(
    f: &mut fmt::Formatter<W>,
    fault: &E,
) -> fmt::Result {
    let number = fault.number();
    let layer = fault.layer().number();
    let place = fault.place();
    write!(f, "refused {number} layer {layer} place {place}: {fault}")
}

impl fmt::Display for Stopped {
    fn fmt<W: fmt::Write>(&self, f: &mut fmt::Formatter<W>) -> fmt::Result {
        match self {
            Stopped::NoMemory => write!(f, "no memory"),
            Stopped::NotAdmitted(reason) => write!(f, "not admitted: {reason}"),
            Stopped::Field(fault) => write_refusal(f, fault),
            Stopped::Design(fault) => write_refusal(f, fault),
            Stopped::Link(fault) => write_refusal(f, fault),
            Stopped::Card(fault) => write_refusal(f, fault),
        }
    }
}
