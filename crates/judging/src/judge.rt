// The judge of offered columns: the questions, in their order.
ghost use Rattle.std.specs.Prelude.{◌≡◌, ◌+◌, ◌-◌, ◌≤◌, length, MatchResult};
ghost use Rattle.algebra.specs.Divisors.{AllZero};
ghost use Rattle.frames.specs.Rows.{generator_in};
ghost use Rattle.framing.specs.Framing.{column_in};
ghost use Rattle.judging.specs.Offers.{Objects, Passed, TellsOptimal};
ghost use Rattle.judging.specs.Questions.{InDegree, FirstOutside, ObjectsByDegree};

use crate::FACTORS;
use crate::degrees::Graded;
use crate::objection::Objection;
use crate::offer::Offer;
use fields::field::Field;
use frames::row::{DIVISOR, Degrees, divide_by_gcd};
use tables::sizes::{MAX_COUNT, WIDTH, WORK};

impl<'a, F: Field> Offer<'a, F> {
    // Asks about the degrees and the leading vectors of the columns, of which column 0 is not zero. The elimination is made in the lent
    // table, whatever stood there.
    fn judge_degrees(&self, d: usize, table: &mut [F]) -> Result<(), Objection>
        requires room { FACTORS + MAX_COUNT ≤ length table.old }
        requires nonzero { AllZero F.ops self.now.n (column_in F.ops F.member self.now.offered.now 0) → ⊥ }
        ensures { MatchResult result (λ _. InDegree F.ops self.now.n (self.now.n - 1) d (column_in F.ops F.member self.now.offered.now) × FirstOutside F.ops self.now.n (self.now.n - 1) (column_in F.ops F.member self.now.offered.now)) (ObjectsByDegree F.ops self.now.n (self.now.n - 1) d (column_in F.ops F.member self.now.offered.now)) }
    {
        let graded = Graded::of(self);
        let (factors, rest) = table.split_at_mut(FACTORS);
        let column = &mut rest[..self.n];
        let mut pivots = [0; MAX_COUNT];
        if !graded.in_order(d) {
            return Err(Objection::Degrees);
        }
        graded
            .eliminate(self.n - 1, factors, &mut pivots, column)
            .ok_or(Objection::Degrees)?;
        let count = graded.count_no_higher();
        if !graded.outside(count, factors, &mut pivots, column) {
            return Err(Objection::Leading);
        }
        Ok(())
    }

    // Judges the columns, and answers the degrees of the divided generators and of the divisor, which is left in the work table.
    pub(crate) fn judge(&self, work: &mut [F]) -> Result<Degrees, Objection>
        requires { length work.old ≡ WORK }
        ensures answer { MatchResult result (λ x. Passed F.ops F.member self.now.n self.now.generators.now self.now.offered.now work.new x.row x.divisor) (Objects F.ops self.now.n (self.now.n - 1) (generator_in F.ops F.member self.now.generators.now) (column_in F.ops F.member self.now.offered.now)) }
        ensures exact { TellsOptimal F.ops (self.now.n - 1) (generator_in F.ops F.member self.now.generators.now) (column_in F.ops F.member self.now.offered.now) result }
    {
        let degrees = divide_by_gcd(self.n, self.generators, work).ok_or(Objection::AllZero)?;
        if !self.product_is(0, &work[DIVISOR..DIVISOR + WIDTH]) {
            return Err(Objection::First);
        }
        if let Some(j) = self.lowest_no_syzygy() {
            return Err(Objection::Check(j));
        }
        self.judge_degrees(degrees.row, &mut work[..DIVISOR])?;
        Ok(degrees)
    }
}
