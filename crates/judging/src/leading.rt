// The leading vectors of the offered columns.
ghost use Rattle.std.specs.Prelude.{◌≡◌, ℕ, ◌<◌, length, MatchOption};
ghost use Rattle.algebra.specs.Independence.{All, Spanned, Independent};
ghost use Rattle.elimination.specs.Steps.{column_at, entry_at, Reduces};
ghost use Rattle.tables.specs.Places.{at};
ghost use Rattle.judging.specs.Answers.{Tells};
ghost use Rattle.judging.specs.Columns.{coefficients_in, check_leading};

use crate::FACTORS;
use crate::degrees::Graded;
use elimination::Steps;
use fields::field::Field;
use tables::sizes::{MAX_COUNT, WIDTH};

impl<'a, F: Field> Graded<'a, F> {
    // Writes the coefficients of column j at its degree.
    fn write_leading(&self, j: usize, column: &mut [F])
        requires { (j < self.now.offer.now.n) × (length column.old ≡ self.now.offer.now.n) }
        ensures { (i : ℕ) → i < self.now.offer.now.n → at F.ops F.member column.new i ≡ coefficients_in F.ops F.member self.now.offer.now.offered.now j (entry_at self.now.degrees j) i }
    {
        let degree = self.degrees[j];
        let components = self.offer.column(j)[..WIDTH * self.offer.n].chunks_exact(WIDTH);
        // A proof knows nothing of what is written through `iter_mut` in a `zip`.
        for (i, component) in components.enumerate() {
            column[i] = component[degree];
        }
    }

    // The steps that turn the leading vectors of the first check columns into unit vectors, in lent tables; absent where these are
    // dependent.
    pub(crate) fn eliminate<'b>(
        &self,
        count: usize,
        factors: &'b mut [F],
        pivots: &'b mut [usize],
        column: &mut [F],
    ) -> Option<Steps<'b, F>>
        requires sized { count < self.now.offer.now.n }
        requires room { (length factors.old ≡ FACTORS) × ((length pivots.old ≡ MAX_COUNT) × (length column.old ≡ self.now.offer.now.n)) }
        ensures answer { MatchOption result (Independent F.ops All count self.now.offer.now.n (check_leading F.ops F.member self.now.offer.now.offered.now self.now.degrees) → ⊥) (λ s. Independent F.ops All count self.now.offer.now.n (check_leading F.ops F.member self.now.offer.now.offered.now self.now.degrees)) }
        ensures steps { MatchOption result (Unit {0}) (λ s. (s.rows ≡ self.now.offer.now.n) × ((s.rank ≡ count) × Reduces F.ops self.now.offer.now.n count (column_at F.ops F.member self.now.offer.now.n s.factors.now) (entry_at s.pivots.now) (check_leading F.ops F.member self.now.offer.now.offered.now self.now.degrees))) }
    {
        let mut steps = Steps::new(self.offer.n, factors, pivots);
        // By number: a leading vector is read by the number of its column, from the offer and from the degrees.
        for j in 0..count {
            self.write_leading(j + 1, column);
            if !steps.take_column(column) {
                return None;
            }
        }
        Some(steps)
    }

    // Whether column 0's leading vector is outside the combinations of those of the first check columns, which are independent.
    pub(crate) fn outside(
        &self,
        count: usize,
        factors: &mut [F],
        pivots: &mut [usize],
        column: &mut [F],
    ) -> bool
        requires sized { count < self.now.offer.now.n }
        requires room { (length factors.old ≡ FACTORS) × ((length pivots.old ≡ MAX_COUNT) × (length column.old ≡ self.now.offer.now.n)) }
        requires independent { Independent F.ops All count self.now.offer.now.n (check_leading F.ops F.member self.now.offer.now.offered.now self.now.degrees) }
        ensures { Tells (Spanned F.ops All count self.now.offer.now.n (check_leading F.ops F.member self.now.offer.now.offered.now self.now.degrees) (coefficients_in F.ops F.member self.now.offer.now.offered.now 0 (entry_at self.now.degrees 0)) → ⊥) result }
    {
        let mut steps = self.eliminate(count, factors, pivots, column).unwrap();
        self.write_leading(0, column);
        steps.take_column(column)
    }
}
