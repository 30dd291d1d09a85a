// Designs by the terms of their generators, with the tables that they lend.
ghost use Rattle.std.specs.Prelude.{◌≡◌, ◌≤◌, IfOk, vec_len, take, drop};

use design::draft::Draft;
use design::fault::DesignFault;
use fields::field::Field;
use std::alloc::{AllocError, Global};
use tables::sizes::{COLUMNS, FRAME, GENERATORS, WORK};

// One nonzero coefficient of a generator: its number, power and code.
#[derive(Clone, Copy)]
pub struct Term(pub usize, pub usize, pub u32);

// A design by the terms of its n generators.
#[derive(Clone, Copy)]
pub struct Design<'a> {
    pub n: usize,
    pub terms: &'a [Term],
}

impl Design<'_> {
    // Begins a draft and enters the terms.
    pub fn enter<F: Field>(&self, generators: &mut [F]) -> Result<Draft, DesignFault>
        ensures { IfOk result (λ draft. draft.n ≡ self.now.n) }
    {
        let draft = Draft::begin(self.n, generators)?;
        for Term(i, power, code) in self.terms {
            draft.put(generators, *i, *power, *code)?;
        }
        Ok(draft)
    }
}

// The tables that a design lends. Tried with ghost fields of their lengths: no proof was made in the crates that use it, since the borrow
// checker covered none of their loans of a field as `&mut` beside others as `&`. (`gcd_tests::Row` has such fields, and lends in its own
// methods.) `draft.frame` is called in full where it is used: it is what the tests test.
#[derive(Drop)]
pub struct Tables<F: Field> {
    pub generators: Vec<F>,
    pub frame: Vec<F>,
    pub work: Vec<F>,
}

impl<F: Field + Clone> Tables<F> {
    // No generators yet, and one element everywhere else.
    pub fn full_of(heap: Global, x: F) -> Result<Tables<F>, AllocError>
        ensures { IfOk result (λ t. (vec_len t.generators ≡ GENERATORS) × (vec_len t.frame ≡ FRAME) × (vec_len t.work ≡ WORK)) }
    {
        Ok(Tables {
            generators: vec![in heap; F::zero(); GENERATORS]?,
            frame: vec![in heap; x; FRAME]?,
            work: vec![in heap; x; WORK]?,
        })
    }

    // The columns of the frame.
    pub fn columns(&self) -> &[F]
        ensures { COLUMNS ≤ vec_len self.now.frame → result.now ≡ take COLUMNS self.now.frame.items }
    {
        self.frame.get(..COLUMNS).unwrap_or(&[])
    }

    // The divisor behind them.
    pub fn divisor(&self) -> &[F]
        ensures { COLUMNS ≤ vec_len self.now.frame → result.now ≡ drop COLUMNS self.now.frame.items }
    {
        self.frame.get(COLUMNS..).unwrap_or(&[])
    }
}
