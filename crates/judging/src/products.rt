// The generators times the offered columns.
ghost use Rattle.std.specs.Prelude.{◌≡◌, ◌<◌, ◌≤◌, length, MatchOption};
ghost use Rattle.algebra.specs.Series.{series, dot};
ghost use Rattle.frames.specs.Rows.{generator_in, row_in};
ghost use Rattle.framing.specs.Framing.{column_in};
ghost use Rattle.tables.specs.Places.{at};
ghost use Rattle.judging.specs.Answers.{Tells};
ghost use Rattle.judging.specs.Columns.{AllSyzygies, LowestNoSyzygy};

use crate::offer::Offer;
use fields::field::Field;
use polynomials::{degree, multiply_into};
use tables::clear;
use tables::rows::add_multiple;
use tables::sizes::{GENERATORS, MAX_COUNT, PRODUCT, WIDTH};

impl<'a, F: Field> Offer<'a, F> {
    // Writes the generators times a column.
    fn write_product(&self, column: &[F], product: &mut [F])
        requires { (length column.now ≡ GENERATORS) × (length product.old ≡ PRODUCT) }
        ensures { at F.ops F.member product.new ≡ dot (series F.ops) self.now.n (generator_in F.ops F.member self.now.generators.now) (row_in F.ops F.member column.now 0) }
    {
        clear(product);
        let generators = &self.generators[..WIDTH * self.n];
        let components = column.chunks_exact(WIDTH);
        for (generator, component) in generators.chunks_exact(WIDTH).zip(components) {
            multiply_into(product, generator, component);
        }
    }

    // Whether the generators times column j are the polynomial of these coefficients.
    pub(crate) fn product_is(&self, j: usize, polynomial: &[F]) -> bool
        requires { (j < MAX_COUNT) × (length polynomial.now ≤ PRODUCT) }
        ensures { Tells (dot (series F.ops) self.now.n (generator_in F.ops F.member self.now.generators.now) (column_in F.ops F.member self.now.offered.now j) ≡ at F.ops F.member polynomial.now) result }
    {
        let column = self.column(j);
        let mut cells = [F::zero(); PRODUCT];
        let difference = &mut cells[..];
        self.write_product(column, difference);
        add_multiple(difference, 0, F::one().negate(), polynomial);
        degree(difference).is_none()
    }

    // The lowest check column that the generators do not send to zero.
    // By a `for`: a closure in `find` would need the clause of `product_is` written out once more.
    pub(crate) fn lowest_no_syzygy(&self) -> Option<usize>
        ensures { MatchOption result (AllSyzygies F.ops self.now.n (generator_in F.ops F.member self.now.generators.now) (column_in F.ops F.member self.now.offered.now)) (LowestNoSyzygy F.ops self.now.n (generator_in F.ops F.member self.now.generators.now) (column_in F.ops F.member self.now.offered.now)) }
    {
        for j in 1..self.n {
            if !self.product_is(j, &[]) {
                return Some(j);
            }
        }
        None
    }
}
