// Coefficients of products of streams and polynomials.
ghost use Rattle.std.specs.Prelude.{◌≡◌, ℕ, ◌+◌, ◌-◌, ◌*◌, ◌<◌, ◌≤◌, length};
ghost use Rattle.algebra.specs.Link.{Clean};
ghost use Rattle.algebra.specs.Series.{series};
ghost use Rattle.framing.specs.Framing.{column_in};
ghost use Rattle.tables.specs.Places.{at};
ghost use Rattle.tables.specs.declared.sizes.TheConstants.{FRAME, HIGHEST, MAX_COUNT};
ghost use Rattle.link.specs.Blocks.{stream, column_sum, Tells};
ghost use Rattle.link.specs.declared.calls.TheConstants.{SYMBOLS};

use fields::field::Field;
use tables::sizes::{GENERATORS, HIGHEST, WIDTH};

// A block of n streams at so many times: the symbol of stream i at time t lies at n t + i.
// At most a message times a generator lies in it. `times` is the length by n, and stays a field: a method would divide at each coefficient,
// and with the quotient in its place the check no longer finds the bounds of the index.
#[derive(Drop)]
pub struct Streams<'a, F> {
    pub symbols: &'a [F],
    pub n: usize,
    pub times: usize,
    ghost some: { (1 ≤ n) × (1 ≤ times) },
    ghost few: { (n ≤ MAX_COUNT) × (times ≤ SYMBOLS + HIGHEST) },
    ghost whole: { length symbols.now ≡ n * times },
}

impl<'a, F: Field> Streams<'a, F> {
    // The coefficient of s^t in the product of stream i and a polynomial.
    pub fn coefficient(&self, i: usize, polynomial: &[F], t: usize) -> F
        requires { i < self.now.n }
        ensures { F.member result ≡ (series F.ops).product (stream F.ops F.member self.now.n self.now.symbols.now i) (at F.ops F.member polynomial.now) t }
    {
        // The last time up to t that has symbols: the coefficient of s^(t - last) meets it, and those above meet the times before.
        let last = t.min(self.times - 1);
        let above = &polynomial[polynomial.len().min(t - last)..];
        let coefficients = &above[..above.len().min(last + 1)];
        // The place is computed: a `zip` with the times backwards, or with `rchunks`, needs up to a tenth more instructions.
        let symbols = self.symbols;
        let mut sum = F::zero();
        for (k, coefficient) in coefficients.iter().enumerate() {
            sum = sum.add(coefficient.multiply(symbols[self.n * (last - k) + i]));
        }
        sum
    }

    // The coefficient of s^t in the sum over the streams of stream i times component i of column j of a frame.
    pub fn combination(&self, frame: &[F], j: usize, t: usize) -> F
        requires { (length frame.now ≡ FRAME) × (j < MAX_COUNT) }
        ensures { F.member result ≡ column_sum F.ops F.member self.now.n self.now.symbols.now frame.now j t }
    {
        let column = &frame[GENERATORS * j..][..WIDTH * self.n];
        column.chunks_exact(WIDTH).enumerate().fold(
            F::zero(),
            |sum, (i, polynomial)| sum.add(self.coefficient(i, polynomial, t)),
        )
    }

    // Whether the sum of column j of a frame has no s^t.
    fn vanishes(&self, frame: &[F], j: usize, t: usize) -> bool
        requires { (length frame.now ≡ FRAME) × (j < MAX_COUNT) }
        ensures { Tells (column_sum F.ops F.member self.now.n self.now.symbols.now frame.now j t ≡ F.ops.zero) result }
    {
        self.combination(frame, j, t).same(F::zero())
    }

    // Whether the sums of all check columns have no s^t.
    fn clean_at(&self, frame: &[F], t: usize) -> bool
        requires { length frame.now ≡ FRAME }
        ensures { Tells ((j : ℕ) → 1 ≤ j → j < self.now.n → column_sum F.ops F.member self.now.n self.now.symbols.now frame.now j t ≡ F.ops.zero) result }
    {
        (1..self.n).all(|j| self.vanishes(frame, j, t))
    }

    // Whether the block is clean.
    pub fn is_clean(&self, frame: &[F]) -> bool
        requires block { 2 ≤ self.now.n }
        requires frame { length frame.now ≡ FRAME }
        ensures { Tells (Clean F.ops (self.now.n - 1) (column_in F.ops F.member frame.now) (stream F.ops F.member self.now.n self.now.symbols.now)) result }
    {
        (0..self.times + HIGHEST).all(|t| self.clean_at(frame, t))
    }
}
