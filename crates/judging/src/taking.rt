// Taking offered columns into a frame table.
ghost use Rattle.std.specs.Prelude.{◌≡◌, ℕ, ◌-◌, ◌<◌, length, MatchResult};
ghost use Rattle.frames.specs.Rows.{generator_in, gcd_in};
ghost use Rattle.framing.specs.Framing.{column_in, divisor_in, ZeroPast};
ghost use Rattle.judging.specs.Offers.{Objects, HoldsOffer, TellsOptimal};

use crate::objection::Objection;
use crate::offer::Offer;
use fields::field::Field;
use frames::row::DIVISOR;
use framing::Numbers;
use tables::clear;
use tables::rows::copy_from;
use tables::sizes::{COLUMNS, FRAME, GENERATORS, WIDTH, WORK};

impl<'a, F: Field> Offer<'a, F> {
    // Writes the first n rows and columns of the offered table and the divisor in the work table into a frame table, whose other places
    // become zero.
    pub(crate) fn take_columns(&self, work: &[F], frame: &mut [F])
        requires { (length work.now ≡ WORK) × (length frame.old ≡ FRAME) }
        ensures copied { (j i : ℕ) → j < self.now.n → i < self.now.n → column_in F.ops F.member frame.new j i ≡ column_in F.ops F.member self.now.offered.now j i }
        ensures divisor { divisor_in F.ops F.member frame.new ≡ gcd_in F.ops F.member work.now }
        ensures rest { ZeroPast F.ops F.member self.now.n frame.new }
    {
        clear(frame);
        copy_from(work, DIVISOR, frame, COLUMNS, WIDTH);
        // By number: a proof knows nothing of what is written through `chunks_exact_mut`.
        for j in 0..self.n {
            copy_from(
                self.offered,
                GENERATORS * j,
                frame,
                GENERATORS * j,
                WIDTH * self.n,
            );
        }
    }

    // Judges the columns, and takes them into a frame table where nothing speaks against them; answers the numbers of the frame.
    pub(crate) fn take(&self, frame: &mut [F], work: &mut [F]) -> Result<Numbers, Objection>
        requires { (length frame.old ≡ FRAME) × (length work.old ≡ WORK) }
        ensures answer { MatchResult result (λ x. HoldsOffer F.ops F.member self.now.n self.now.generators.now self.now.offered.now frame.new x.degree x.divisor x.columns) (λ x. Objects F.ops self.now.n (self.now.n - 1) (generator_in F.ops F.member self.now.generators.now) (column_in F.ops F.member self.now.offered.now) x × (frame.new ≡ frame.old)) }
        ensures exact { TellsOptimal F.ops (self.now.n - 1) (generator_in F.ops F.member self.now.generators.now) (column_in F.ops F.member self.now.offered.now) result }
    {
        let degrees = self.judge(work)?;
        self.take_columns(work, frame);
        Ok(Numbers::of(self.n, degrees, frame))
    }
}
