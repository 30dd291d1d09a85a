// Vectors of polynomials, each beside its product with the row, as flat lists of places.
use crate::codes::{add_shifted, inverse, member_of, scale, top_of};
use crate::sizes::{GENERATORS, POWERS};
use fields::field::Field;

// The components: those of the vector, and last the product.
const WIDTH: usize = GENERATORS + 1;

// The places: 17 powers of the vector, and above them 17 of the product.
pub const PLACES: usize = 2 * POWERS * WIDTH;

// Power k of component i stands at 9 k + i. The product is raised by 17 powers, so that it leads while it is not zero. One flat list,
// since the order of the places is what reduces: the highest leads, and a multiple by a power of s is the list moved up.
#[derive(Clone, Copy)]
pub struct Vector {
    cells: [u16; PLACES],
}

// The component of a place.
pub(crate) fn component_of(place: usize) -> usize {
    place % WIDTH
}

// Copies the powers of a component, from those of a vector that are handed in; what lies past their end counts as zero.
fn copy_component(part: &mut [u16], powers: &[u16], i: usize) {
    for (code, power) in part.iter_mut().zip(powers.chunks(WIDTH)) {
        *code = power.get(i).copied().unwrap_or(0);
    }
}

impl Vector {
    pub fn zero() -> Vector {
        Vector { cells: [0; PLACES] }
    }

    // Unit vector i beside its product.
    pub(crate) fn unit(i: usize, product: &[u16]) -> Vector {
        let mut unit = Vector::zero();
        if let Some(cell) = unit.cells.get_mut(i) {
            *cell = 1;
        }
        for (power, code) in unit.cells.chunks_mut(WIDTH).skip(POWERS).zip(product) {
            if let Some(cell) = power.last_mut() {
                *cell = *code;
            }
        }
        unit
    }

    // The leading place, the highest that is not zero; absent for the zero vector.
    pub fn leading(&self) -> Option<usize> {
        top_of(&self.cells)
    }

    // The code at a place; what lies past the end counts as zero.
    pub fn at(&self, place: usize) -> u16 {
        self.cells.get(place).copied().unwrap_or(0)
    }

    // Whether the product is not zero.
    pub(crate) fn has_product(&self) -> bool {
        self.leading()
            .is_some_and(|leading| component_of(leading) == GENERATORS)
    }

    // Makes the coefficient at a place zero by a multiple of another vector, whose leading place comes to lie there.
    pub fn cancel<F: Field>(&mut self, place: usize, other: &Vector) {
        let Some(leading) = other.leading() else {
            return;
        };
        let Some(by) = place.checked_sub(leading) else {
            return;
        };
        let x = member_of::<F>(self.at(place)).multiply(inverse(other.at(leading)));
        add_shifted(&mut self.cells, by, x.negate(), &other.cells);
    }

    // Makes the leading coefficient 1, where there is one.
    pub fn make_monic<F: Field>(&mut self) {
        if let Some(leading) = self.leading() {
            let x = inverse::<F>(self.at(leading));
            scale(&mut self.cells, x);
        }
    }

    // Writes the components as a column.
    pub(crate) fn write_column(&self, column: &mut [u16]) {
        for (i, part) in column.chunks_mut(POWERS).enumerate() {
            copy_component(part, &self.cells, i);
        }
    }

    // Writes the product, less the powers that raise it.
    pub(crate) fn write_product(&self, part: &mut [u16]) {
        copy_component(part, &self.cells[WIDTH * POWERS..], GENERATORS);
    }
}
