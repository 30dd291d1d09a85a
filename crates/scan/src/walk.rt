// How far a walk over the places of a row came.
ghost use Rattle.std.specs.Prelude.{false, ◌≡◌, ℕ, suc, ◌+◌, ◌*◌, ◌<◌, length};
ghost use Rattle.scan.specs.Columns.{mark_at};

use crate::row::Row;
use crate::{FACTORS, ROWS};
use elimination::Steps;
use fields::field::Field;
use tables::sizes::MAX_COUNT;

// The steps of the pivotal places, these places in order, the classes of the basic places, and how many of these there are. Each list is
// written into the column. The frame is no part of it: it is lent to each call, whose caller learns what it holds then.
// The places and the classes are arrays of fixed size, the places with their count in the steps: no memory is allocated below `history`.
#[derive(Drop)]
pub struct Walk<'a, F: Field> {
    pub row: Row<'a, F>,
    pub steps: Steps<'a, F>,
    pub places: [usize; ROWS],
    pub found: [bool; MAX_COUNT],
    pub basics: usize,
    pub column: &'a mut [F],
    pub ghost wide: { steps.rows ≡ suc (row.d + row.d) },
    pub ghost long: { length column.now ≡ steps.rows },
}

impl<'a, F: Field> Walk<'a, F> {
    // No place of a row walked yet.
    pub fn new(
        row: Row<'a, F>,
        factors: &'a mut [F],
        pivots: &'a mut [usize],
        column: &'a mut [F],
    ) -> Walk<'a, F>
        requires { (length factors.old ≡ FACTORS) × ((length pivots.old ≡ ROWS) × (length column.old ≡ suc (row.d + row.d))) }
        ensures row { result.row ≡ row.entry }
        ensures none { (result.steps.rank ≡ 0) × (result.basics ≡ 0) }
        ensures unmarked { (i : ℕ) → i < MAX_COUNT → mark_at result.found i ≡ false }
    {
        let steps = Steps::new(2 * row.d + 1, factors, pivots);
        Walk {
            row,
            steps,
            places: [0; ROWS],
            found: [false; MAX_COUNT],
            basics: 0,
            column,
        }
    }
}
