// The degrees of the offered columns.
ghost use Rattle.std.specs.Prelude.{◌≡◌, ℕ, ◌-◌, ◌<◌, ◌≤◌};
ghost use Rattle.elimination.specs.Steps.{entry_at};
ghost use Rattle.frames.specs.Rows.{Highest};
ghost use Rattle.framing.specs.Framing.{column_in};
ghost use Rattle.tables.specs.declared.sizes.TheConstants.{HIGHEST, MAX_COUNT};
ghost use Rattle.judging.specs.Answers.{Tells};
ghost use Rattle.judging.specs.Columns.{check_degree, InOrder, NoHigher};

use crate::offer::Offer;
use fields::field::Field;
use frames::row::row_degree;
use tables::sizes::MAX_COUNT;

// The columns of an offer, with their degrees: of one that is zero it is 0, as `Highest` defines the degree of every row.
// The degrees are an array of fixed size, of which n are used: no memory is allocated below `history`.
#[derive(Drop)]
pub(crate) struct Graded<'a, F: Field> {
    pub(crate) offer: &'a Offer<'a, F>,
    pub(crate) degrees: [usize; MAX_COUNT],
    ghost bound: { (j : ℕ) → j < offer.now.n → entry_at degrees j ≤ HIGHEST },
}

impl<'a, F: Field> Graded<'a, F> {
    // Finds the degrees of the columns of an offer.
    pub(crate) fn of(offer: &'a Offer<'a, F>) -> Graded<'a, F>
        ensures same { result.offer.now ≡ offer.now }
        ensures degrees { (j : ℕ) → j < offer.now.n → Highest F.ops offer.now.n (column_in F.ops F.member offer.now.offered.now j) (entry_at result.degrees j) }
    {
        let mut degrees = [0; MAX_COUNT];
        // By number: a proof knows nothing of what is written through `iter_mut` in a `zip`.
        for (j, degree) in degrees[..offer.n].iter_mut().enumerate() {
            *degree = row_degree(offer.n, offer.column(j));
        }
        Graded { offer, degrees }
    }

    // Whether the degrees of the check columns never fall and add up to d.
    pub(crate) fn in_order(&self, d: usize) -> bool
        ensures { Tells (InOrder (self.now.offer.now.n - 1) d (check_degree self.now.degrees)) result }
    {
        let checks = &self.degrees[1..self.offer.n];
        checks.is_sorted() && checks.iter().sum::<usize>() == d
    }

    // How many check columns, from the first on, have no higher degree than column 0.
    pub(crate) fn count_no_higher(&self) -> usize
        ensures { NoHigher (self.now.offer.now.n - 1) (entry_at self.now.degrees 0) (check_degree self.now.degrees) result }
    {
        let first = self.degrees[0];
        let checks = &self.degrees[1..self.offer.n];
        checks
            .iter()
            .position(|&degree| degree > first)
            .unwrap_or(checks.len())
    }
}
