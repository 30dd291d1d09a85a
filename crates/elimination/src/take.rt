// Taking columns by the steps found so far. In a file of its own, since clauses here cite definitions over `Steps`.
ghost use Rattle.std.specs.Prelude.{◌≡◌, ◌+◌, ◌*◌, ◌≤◌, length};
ghost use Rattle.tables.specs.Places.{at, Kept};
ghost use Rattle.elimination.specs.Echelon.{places_after};
ghost use Rattle.elimination.specs.Steps.{column_at, entry_at, rank_after, AreSteps};
ghost use Rattle.elimination.specs.Taken.{SameTables, Took, TookNext};

use crate::Steps;
use crate::step::{find_pivot, record_step};
use fields::field::Field;

impl<'a, F: Field> Steps<'a, F> {
    // Takes one more column: reduces it by the steps found so far, answers whether it is pivotal, and if it is, records the step that turns
    // it into the next unit vector.
    pub fn take_column(&mut self, column: &mut [F]) -> bool
        requires { length column.old ≡ self.old.rows }
        ensures takes { Took self.old self.new (at F.ops F.member column.old) (at F.ops F.member column.new) result }
        ensures counted { (self.new.rows ≡ self.old.rows) × (self.new.rank ≡ rank_after self.old.rank result) }
        ensures lent { SameTables self.old self.new }
    {
        self.bring(column);
        let Some(pivot) = find_pivot(column, self.rank) else {
            return false;
        };
        record_step(self.rows, self.rank, self.factors, column, pivot);
        self.pivots[self.rank] = pivot.row;
        self.rank += 1;
        true
    }

    // Takes column q of a matrix, whose columns stand one behind the other.
    pub fn take_column_of(&mut self, matrix: &mut [F], q: usize) -> bool
        requires { self.old.rows * q + self.old.rows ≤ length matrix.old }
        ensures takes { Took self.old self.new (column_at F.ops F.member self.old.rows matrix.old q) (column_at F.ops F.member self.old.rows matrix.new q) result }
        ensures counted { (self.new.rows ≡ self.old.rows) × (self.new.rank ≡ rank_after self.old.rank result) }
        ensures lent { SameTables self.old self.new }
        ensures others { Kept F.ops F.member (self.old.rows * q) self.old.rows matrix.old matrix.new }
    {
        let start = self.rows * q;
        self.take_column(&mut matrix[start..start + self.rows])
    }

    // Takes a column of a matrix as column q of all columns; if it is pivotal, q is written behind the places of the pivotal columns before
    // it. `eliminate` hands one number twice, but the call is public, and its callers may take a column from elsewhere.
    pub fn take_next(
        &mut self,
        places: &mut [usize],
        matrix: &mut [F],
        column: usize,
        q: usize,
    ) -> bool
        requires room { (self.old.rows ≤ length places.old) × (self.old.rows * column + self.old.rows ≤ length matrix.old) }
        ensures valid { AreSteps F.ops self.old.rows (rank_after self.old.rank result) (column_at F.ops F.member self.old.rows self.new.factors.now) (entry_at self.new.pivots.now) }
        ensures bound { rank_after self.old.rank result ≤ self.old.rows }
        ensures placed { places.new ≡ places_after self.old.rank q places.old result }
        ensures takes { TookNext q self.old self.new places.old (column_at F.ops F.member self.old.rows matrix.old column) (column_at F.ops F.member self.old.rows matrix.new column) result }
        ensures counted { (self.new.rows ≡ self.old.rows) × (self.new.rank ≡ rank_after self.old.rank result) }
        ensures lent { SameTables self.old self.new }
        ensures others { Kept F.ops F.member (self.old.rows * column) self.old.rows matrix.old matrix.new }
    {
        let rank = self.rank;
        let pivotal = self.take_column_of(matrix, column);
        if pivotal {
            places[rank] = q;
        }
        pivotal
    }
}
