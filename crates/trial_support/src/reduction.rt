// The second solver's route to columns: the unit vectors, each beside its product with the row, are reduced by each other until
// their leading places lie in distinct components.
use crate::rows::Row;
use crate::sizes::GENERATORS;
use crate::vectors::{PLACES, Vector, component_of};
use fields::field::Field;

// The vectors past the row's generators are zero.
#[derive(Clone, Copy)]
pub struct Basis {
    pub(crate) vectors: [Vector; GENERATORS],
}

impl Basis {
    pub fn begin(row: &Row) -> Basis {
        let mut vectors = [Vector::zero(); GENERATORS];
        for (i, (vector, polynomial)) in vectors
            .iter_mut()
            .zip(row.polynomials().iter())
            .enumerate()
        {
            *vector = Vector::unit(i, polynomial);
        }
        Basis { vectors }
    }

    // Another vector than i whose leading place is in the same component as a place and no higher.
    fn reducer(&self, i: usize, place: usize) -> Option<Vector> {
        let found = self.vectors.iter().enumerate().rfind(|(j, vector)| {
            *j != i
                && vector.leading().is_some_and(|leading| {
                    leading <= place && component_of(leading) == component_of(place)
                })
        });
        found.map(|(_, vector)| *vector)
    }

    // Reduces vector i at a place, where another can; answers whether one could.
    fn reduce_at<F: Field>(&mut self, i: usize, place: usize) -> bool {
        let reducer = self.reducer(i, place);
        match (self.vectors.get_mut(i), reducer) {
            (Some(vector), Some(other)) => {
                vector.cancel::<F>(place, &other);
                true
            }
            _ => false,
        }
    }

    // Reduces each vector once at its leading place; answers whether any could be. By number, since the others of the array reduce it.
    fn reduce_once<F: Field>(&mut self) -> bool {
        let mut any = false;
        for i in 0..GENERATORS {
            if let Some(leading) = self.vectors[i].leading() {
                any |= self.reduce_at::<F>(i, leading);
            }
        }
        any
    }

    // Reduces until no leading place can be lowered. Each round lowers one, so 8 times the number of places suffice.
    pub fn reduce_leading<F: Field>(&mut self) {
        for _ in 0..GENERATORS * PLACES {
            if !self.reduce_once::<F>() {
                break;
            }
        }
    }

    // Reduces vector i at all its places but the leading one, from the highest down. By place, since the vector changes meanwhile.
    fn reduce_tail<F: Field>(&mut self, i: usize) {
        for place in (0..PLACES).rev() {
            if self
                .vectors
                .get(i)
                .is_some_and(|vector| vector.at(place) != 0)
            {
                self.reduce_at::<F>(i, place);
            }
        }
    }

    // By number, since the others of the array reduce each.
    pub fn reduce_tails<F: Field>(&mut self) {
        for i in 0..GENERATORS {
            self.reduce_tail::<F>(i);
        }
    }

    // Makes each vector monic, and puts them in the order of a frame: the one whose product is not zero, then the others by their
    // leading places.
    pub(crate) fn put_in_order<F: Field>(&mut self) {
        for vector in self.vectors.iter_mut() {
            vector.make_monic::<F>();
        }
        self.vectors
            .sort_unstable_by_key(|vector| (!vector.has_product(), vector.leading()));
    }
}
