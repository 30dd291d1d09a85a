// Gauss-Jordan elimination, one column at a time, in lent tables.
#![tactic(auto)]

ghost use Rattle.std.specs.Prelude.{◌≡◌, ℕ, ◌+◌, ◌*◌, ◌<◌, ◌≤◌, length};
ghost use Rattle.tables.specs.Places.{at, Kept};
ghost use Rattle.elimination.specs.Echelon.{Echelon, Relations, places_after};
ghost use Rattle.elimination.specs.Steps.{reduced, column_at, entry_at, rank_after, AreSteps};

use crate::step::{find_pivot, record_step, reduce};
use fields::field::Field;

pub mod step;
mod take;

// The steps found so far, in lent tables: the numbers of step t from rows * t on, and its pivot row at place t.
#[derive(Drop)]
pub struct Steps<'a, F: Field> {
    pub rows: usize,
    pub rank: usize,
    pub factors: &'a mut [F],
    pub pivots: &'a mut [usize],
    pub ghost room: { (rows * rows ≤ length factors.now) × (rows ≤ length pivots.now) },
    pub ghost valid: { ∥ AreSteps F.ops rows rank (column_at F.ops F.member rows factors.now) (entry_at pivots.now) ∥₁ },
}

impl<'a, F: Field> Steps<'a, F> {
    // No steps yet, for columns of so many rows.
    pub fn new(rows: usize, factors: &'a mut [F], pivots: &'a mut [usize]) -> Steps<'a, F>
        requires { (rows * rows ≤ length factors.old) × (rows ≤ length pivots.old) }
        ensures none { (result.rows ≡ rows) × (result.rank ≡ 0) }
        ensures factors { result.factors.ghost_name ≡ factors.entry.ghost_name }
        ensures pivots { result.pivots.ghost_name ≡ pivots.entry.ghost_name }
    {
        Steps {
            rows,
            rank: 0,
            factors,
            pivots,
        }
    }

    // Brings a column up to date by the steps. Only behind a `&self` does the check know that lending the tables leaves them as they are.
    fn bring(&self, column: &mut [F])
        requires { length column.old ≡ self.now.rows }
        ensures { at F.ops F.member column.new ≡ reduced F.ops (column_at F.ops F.member self.now.rows self.now.factors.now) (entry_at self.now.pivots.now) self.now.rank (at F.ops F.member column.old) }
    {
        reduce(self.rows, self.rank, self.factors, self.pivots, column);
    }
}

// Reduces every column of a matrix, whose columns stand one behind the other. Answers the rank, and writes the places of the pivotal
// columns. The tables of the steps are lent apart, since there are no steps yet. No function of the library calls it: it is a public call,
// which stays.
pub fn eliminate<F: Field>(
    rows: usize,
    columns: usize,
    matrix: &mut [F],
    factors: &mut [F],
    pivots: &mut [usize],
    places: &mut [usize],
) -> usize
    requires room { (rows * columns ≤ length matrix.old) × ((rows * rows ≤ length factors.old) × ((rows ≤ length pivots.old) × (rows ≤ length places.old))) }
    ensures echelon { Echelon F.ops rows (column_at F.ops F.member rows matrix.old) columns result (entry_at places.new) }
    ensures relations { Relations F.ops rows (column_at F.ops F.member rows matrix.old) (column_at F.ops F.member rows matrix.new) columns result (entry_at places.new) }
{
    let mut steps = Steps::new(rows, factors, pivots);
    // By the index, since chunks of no rows are refused, and a proof does not know what a loop over lent chunks leaves in the matrix.
    for q in 0..columns {
        steps.take_next(places, matrix, q, q);
    }
    steps.rank
}
