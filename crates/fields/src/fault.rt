// Refusals: what each carries, and the field's own.
ghost use Rattle.std.specs.Prelude.{◌≡◌, ℕ};
ghost use Rattle.fields.specs.Faults.{layer_number, field_number, field_layer, field_place};
ghost use Rattle.fields.specs.declared.fault.Layer.{Layer};

use std::error::Error;
use std::fmt;

// The layer whose rule a refused call broke.
#[derive(Clone, Copy, PartialEq, Eq, Debug)]
pub enum Layer {
    Field = 1,
    Card = 2,
    Design = 3,
    Link = 4,
}

impl From<Layer> for u8 {
    ghost from_gives = { λ x r. r ≡ layer_number x };

    fn from(layer: Layer) -> u8 {
        layer as u8
    }
}

impl Layer {
    // The number that is printed.
    pub fn number(self) -> u8
        ensures { result ≡ layer_number self }
    {
        self.into()
    }
}

// What every refusal carries. Question and place stay numbers, 0 for no place: refusals are printed so, and docs/refusals.md lists them.
pub trait Refusal {
    ghost numbered: { Self → ℕ };

    ghost layered: { Self → Layer };

    ghost placed: { Self → ℕ };

    // The number of the question that was answered no.
    fn number(&self) -> u8
        ensures { result ≡ numbered self.now };

    // The layer that asked it.
    fn layer(&self) -> Layer
        ensures { result ≡ layered self.now };

    // Where the fault lies, 0 where the question has no place.
    fn place(&self) -> usize
        ensures { result ≡ placed self.now };
}

// The field's refusals.
#[derive(Clone, Copy, PartialEq, Eq, Debug)]
pub enum FieldFault {
    CodeTooLarge,
}

impl Refusal for FieldFault {
    ghost numbered = { field_number };

    ghost layered = { field_layer };

    ghost placed = { field_place };

    fn number(&self) -> u8 {
        5
    }

    fn layer(&self) -> Layer {
        Layer::Field
    }

    fn place(&self) -> usize {
        0
    }
}

impl fmt::Display for FieldFault {
    fn fmt<W: fmt::Write>(&self, f: &mut fmt::Formatter<W>) -> fmt::Result {
        write!(f, "the code is not below the field's size")
    }
}

impl Error for FieldFault {}

// A refusal as text: its number, layer, place and reason.
#[derive(Drop)]
pub struct RefusalText<'a, E: Refusal + fmt::Display> {
    pub fault: &'a E,
}

impl<E: Refusal + fmt::Display> fmt::Display for RefusalText<'_, E> {
    fn fmt<W: fmt::Write>(&self, f: &mut fmt::Formatter<W>) -> fmt::Result {
        let fault = self.fault;
        let number = fault.number();
        let layer = fault.layer().number();
        let place = fault.place();
        write!(f, "refused {number}, layer {layer}, place {place}: {fault}")
    }
}
