// The tables that the calls are lent, and designs entered into them through the calls.
use design::draft::Draft;
use design::fault::DesignFault;
use design::framed::Framed;
use fields::field::Field;
use std::alloc::{AllocError, Global};
use trial_support::rows::Row;
use trial_support::sizes::{FRAME, POWERS, ROW, WORK};

// The tests have tables of their own, by the library's sizes: these are by those of the second route, which the calls then confirm.
#[derive(Drop)]
pub struct Tables<F: Field + Drop> {
    pub generators: Vec<F>,
    pub frame: Vec<F>,
    pub work: Vec<F>,
}

impl<F: Field + Clone + Drop> Tables<F> {
    // Tables that are full of ones.
    pub fn full(heap: Global) -> Result<Tables<F>, AllocError> {
        Ok(Tables {
            generators: vec![in heap; F::one(); ROW]?,
            frame: vec![in heap; F::one(); FRAME]?,
            work: vec![in heap; F::one(); WORK]?,
        })
    }
}

impl<F: Field + Drop> Tables<F> {
    // Enters a row, with ones in the polynomials past it.
    pub fn enter(&mut self, row: &Row) -> Result<Draft, DesignFault> {
        let draft = enter(row, self.generators.as_mut_slice())?;
        if let Some(rest) = self
            .generators
            .as_mut_slice()
            .get_mut(row.n.saturating_mul(POWERS)..)
        {
            mark(rest);
        }
        Ok(draft)
    }

    // Enters a row and frames it; absent where a call refuses.
    pub(crate) fn frame(&mut self, row: &Row) -> Option<Framed> {
        let draft = self.enter(row).ok()?;
        let framed = draft.frame(
            self.generators.as_slice(),
            self.frame.as_mut_slice(),
            self.work.as_mut_slice(),
        );
        framed.ok()
    }
}

// Fills a table with ones.
pub fn mark<F: Field>(table: &mut [F]) {
    // `fill` asks that a clone is the element, which is no law of a field.
    for x in table {
        *x = F::one();
    }
}

// Enters polynomial i of a row by its codes.
fn put_polynomial<F: Field>(
    draft: &Draft,
    generators: &mut [F],
    i: usize,
    polynomial: &[u16],
) -> Result<(), DesignFault> {
    for (power, code) in polynomial.iter().enumerate() {
        if *code != 0 {
            draft.put(generators, i, power, u32::from(*code))?;
        }
    }
    Ok(())
}

// Enters a row by its codes.
pub fn enter<F: Field>(row: &Row, generators: &mut [F]) -> Result<Draft, DesignFault> {
    let draft = Draft::begin(row.n, generators)?;
    for (i, polynomial) in row.polynomials().iter().enumerate() {
        put_polynomial(&draft, generators, i, polynomial)?;
    }
    Ok(draft)
}

// Whether the codes of a table are those of a list, place by place.
pub fn holds<F: Field>(table: &[F], codes: &[u16]) -> bool {
    table.len() == codes.len() && table.iter().zip(codes).all(|(x, code)| x.code() == *code)
}

// Whether every place of a table has one code.
pub fn all_are<F: Field>(table: &[F], code: u16) -> bool {
    table.iter().all(|x| x.code() == code)
}
