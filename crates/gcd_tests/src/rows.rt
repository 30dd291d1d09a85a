// Rows of generators for the tests, and what is checked of each.
ghost use Rattle.std.specs.Prelude.{◌≡◌, ◌≤◌, length};
ghost use Rattle.tables.specs.declared.sizes.TheConstants.{GENERATORS, MAX_COUNT, WORK};

use crate::plain::{Polynomial, code, divides, element, multiply, top};
use fields::field::Field;
use frames::row::{DIVISOR, Degrees, ROW, divide_by_gcd};
use random::Random;
use std::alloc::{AllocError, Global};
use std::process::Abort;
use tables::sizes::{GENERATORS, MAX_COUNT, WIDTH, WORK};

// A polynomial of at most that degree, with codes that look random.
pub fn polynomial<F: Field>(degree: usize, seed: u32) -> Polynomial {
    let mut f = [0; WIDTH];
    let mut random = Random::seeded(seed);
    for code in f.iter_mut().take(degree.saturating_add(1)) {
        *code = random.below(F::size());
    }
    f
}

// The codes of coefficients, and zeros behind them.
fn codes<F: Field>(coefficients: &[F]) -> Polynomial {
    let mut f = [0; WIDTH];
    for (a, x) in f.iter_mut().zip(coefficients.iter()) {
        *a = code(*x);
    }
    f
}

// Writes a polynomial over coefficients.
pub(crate) fn write<F: Field>(coefficients: &mut [F], f: Polynomial) {
    for (x, code) in coefficients.iter_mut().zip(f.iter()) {
        *x = element(*code);
    }
}

// A row of n generators, with the work table that it is divided in.
#[derive(Drop)]
pub struct Row<F: Field> {
    pub n: usize,
    pub generators: Vec<F>,
    pub work: Vec<F>,
    ghost few: { n ≤ MAX_COUNT },
    ghost rows: { length generators.items ≡ GENERATORS },
    ghost room: { length work.items ≡ WORK },
}

impl<F: Field + Clone> Row<F> {
    // Generators that are zero, and a work table full of one element.
    pub(crate) fn zeros(heap: Global, n: usize, rest: F) -> Result<Row<F>, AllocError>
        requires { n ≤ MAX_COUNT }
    {
        Ok(Row {
            n,
            generators: vec![in heap; F::zero(); GENERATORS]?,
            work: vec![in heap; rest; WORK]?,
        })
    }
}

impl<F: Field> Row<F> {
    // The call.
    pub fn divide(&mut self) -> Option<Degrees> {
        divide_by_gcd(self.n, &self.generators, &mut self.work)
    }

    // What stands at the divisor's place.
    pub(crate) fn divisor(&self) -> Polynomial {
        codes(&self.work[DIVISOR..ROW])
    }

    // What stands from the first quotient on.
    fn quotients(&self) -> &[F] {
        &self.work[ROW..]
    }

    // Whether every place outside the divisor and so many quotients is zero.
    pub fn rest_is_zero(&self, count: usize) -> bool {
        let used = count.saturating_mul(WIDTH);
        self.work.iter().take(DIVISOR).all(|x| x.code() == 0)
            && self.quotients().iter().skip(used).all(|x| x.code() == 0)
    }

    // Whether s^e + low divides each generator.
    fn is_divided(&self, e: usize, low: Polynomial) -> bool {
        self.generators
            .chunks(WIDTH)
            .take(self.n)
            .all(|generator| divides::<F>(e, low, codes(generator)))
    }

    // The divisor is monic of its degree, its products with the quotients are the generators, the row has its degree, the rest is zero.
    pub fn check_division(&self, rt: &impl Abort, degrees: Degrees) {
        let divisor = self.divisor();
        assert_eq!(rt; top(divisor), Some(degrees.divisor));
        assert_eq!(rt; divisor.get(degrees.divisor).copied(), Some(1));
        let mut highest = None;
        for (generator, quotient) in self
            .generators
            .chunks(WIDTH)
            .zip(self.quotients().chunks(WIDTH))
            .take(self.n)
        {
            let quotient = codes(quotient);
            highest = highest.max(top(quotient));
            assert_eq!(rt; multiply::<F>(divisor, quotient), codes(generator));
        }
        assert_eq!(rt; highest, Some(degrees.row));
        assert!(rt; self.rest_is_zero(self.n));
    }

    // A monic polynomial of degree e with the lower codes low and next divides the divisor exactly if it divides each generator.
    pub fn check_trial(&self, rt: &impl Abort, e: usize, low: u32, next: u32) {
        let mut trial = [0; WIDTH];
        trial[0] = low;
        trial[1] = next;
        assert_eq!(rt;
            divides::<F>(e, trial, self.divisor()),
            self.is_divided(e, trial)
        );
    }
}
