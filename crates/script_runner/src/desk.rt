// The tables of one field, and the design that stands in them.
ghost use Rattle.std.specs.Prelude.{◌≡◌, length, IfSome};
ghost use Rattle.history.specs.Steps.{Stands};
ghost use Rattle.tables.specs.declared.sizes.TheConstants.{GENERATORS};

use crate::elements::zeros;
use crate::stopped::Reason;
use design::draft::Draft;
use design::framed::Framed;
use fields::field::Field;
use history::request::Design;
use std::alloc::{AllocError, Global};
use tables::sizes::{FRAME, GENERATORS};

#[derive(Drop)]
pub struct Desk<F: Field> {
    // What the tables, and those that a call is brought, are allocated from.
    pub(crate) heap: Global,
    pub design: Option<Design>,
    pub generators: Vec<F>,
    pub frame: Vec<F>,
    ghost long: { length generators.items ≡ GENERATORS },
    // A design that is framed keeps its promise.
    ghost stands: { ∥ IfSome design (λ d. Stands F.ops F.member d generators.items frame.items) ∥₁ },
}

impl<F: Field> Desk<F> {
    // Tables of zeros, with no design.
    pub fn new(heap: Global) -> Result<Desk<F>, AllocError> {
        Ok(Desk {
            heap,
            design: None,
            generators: zeros(heap, GENERATORS)?,
            frame: zeros(heap, FRAME)?,
        })
    }

    // The design that stands.
    pub(crate) fn design(&self) -> Result<&Design, Reason> {
        self.design.as_ref().ok_or(Reason::NoDesign)
    }

    // The same, where it is a draft.
    pub(crate) fn draft(&self) -> Result<&Draft, Reason> {
        match self.design()? {
            Design::Draft(draft) => Ok(draft),
            Design::Framed(_) => Err(Reason::Framed),
        }
    }

    // The same, where it is framed.
    pub(crate) fn framed(&self) -> Result<&Framed, Reason> {
        match self.design()? {
            Design::Draft(_) => Err(Reason::Draft),
            Design::Framed(framed) => Ok(framed),
        }
    }
}
