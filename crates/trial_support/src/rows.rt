// Rows of generators: of many shapes, drawn at random.
ghost use Rattle.std.specs.Prelude.{◌≡◌, ◌≢◌, ℕ, List, [], ◌<◌, ◌≤◌, Some, IsTrue, All, replicate, get_or, set, slice_get, take};
ghost use Rattle.trial_support.specs.declared.sizes.TheConstants.{GENERATORS, POWERS};

use crate::codes::{add_product, top_of};
use crate::draws::Draws;
use crate::sizes::{GENERATORS, POWERS};
use fields::field::Field;

// A row of n polynomials, each by the codes of its coefficients; those from n on are zero. All have their place, with n beside them:
// a `Vec` of n would bring the heap, and its refusal, to every row that is drawn or read. n is any number, and of a row of more than 8
// polynomials those past the eighth are zero and have no place.
#[derive(Clone, Copy)]
pub struct Row {
    pub n: usize,
    pub polynomials: [[u16; POWERS]; GENERATORS],
}

#[derive(Clone, Copy, PartialEq, Eq)]
pub enum Shape {
    // Any coefficients.
    Plain,
    // Coefficients 0 and 1, most of them 0.
    Sparse,
    // All polynomials are multiples of one.
    Shared,
    // All polynomials are multiples of one by members: the divided row has degree 0.
    Flat,
    // Eight polynomials of degree 16.
    Largest,
    // Eight polynomials with few terms, up to s^16.
    Scattered,
    // All polynomials are zero.
    Empty,
}

impl Row {
    // The row of n zeros.
    pub fn zeros(n: usize) -> Row
        ensures count { result.n ≡ n }
        ensures zeros { result.polynomials ≡ replicate GENERATORS (replicate POWERS 0) }
    {
        let polynomials = [[0; POWERS]; GENERATORS];
        Row { n, polynomials }
    }

    // The n polynomials, as far as they have a place.
    pub fn polynomials(&self) -> &[[u16; POWERS]]
        ensures { result.now ≡ take self.now.n self.now.polynomials }
    {
        &self.polynomials[..self.n.min(GENERATORS)]
    }

    // Sets the coefficient of a power of polynomial i; what there is none of is passed over.
    pub fn put(&mut self, i: usize, power: usize, code: u16)
        ensures count { self.new.n ≡ self.old.n }
        ensures coefficient { i < GENERATORS → power < POWERS → self.new.polynomials ≡ set self.old.polynomials i (set (get_or self.old.polynomials i []) power code) }
    {
        if i < GENERATORS && power < POWERS {
            self.polynomials[i][power] = code;
        }
    }

    // Whether every polynomial is zero.
    pub fn is_zero(&self) -> bool
        ensures { IsTrue result → (j : ℕ) (p : List ℕ) → slice_get (take self.now.n self.now.polynomials) j ≡ Some p → All (λ code. code ≡ 0) p }
    {
        let mut polynomials = self.polynomials().iter();
        polynomials.all(|polynomial| top_of(polynomial).is_none())
    }

    // Whether polynomial i is the only one that is not zero.
    pub fn is_alone(&self, i: usize) -> bool
        ensures { IsTrue result → (j : ℕ) (p : List ℕ) → slice_get (take self.now.n self.now.polynomials) j ≡ Some p
            → j ≢ i → All (λ code. code ≡ 0) p }
    {
        let mut polynomials = self.polynomials().iter().enumerate();
        polynomials.all(|(j, polynomial)| top_of(polynomial).is_some() == (i == j))
    }

    // The highest power with a coefficient that is not zero, absent if there is none.
    pub fn degree(&self) -> Option<usize> {
        self.polynomials()
            .iter()
            .filter_map(|polynomial| top_of(polynomial))
            .max()
    }
}

// A polynomial of at most that degree, each coefficient drawn.
fn draw_polynomial<C: FnMut() -> u16>(degree: usize, mut code: C) -> [u16; POWERS]
    requires { C.IsAlwaysCallable code }
{
    let mut drawn = [0; POWERS];
    for x in drawn.iter_mut().take(degree.saturating_add(1)) {
        *x = code();
    }
    drawn
}

// A monic polynomial of that degree.
fn draw_monic<F: Field>(draws: &mut Draws, degree: usize) -> [u16; POWERS] {
    let mut drawn = draw_polynomial(degree, || draws.code::<F>());
    if let Some(leading) = drawn.get_mut(degree) {
        *leading = 1;
    }
    drawn
}

// What a row of a shape is drawn with: n, the degree of the divided row, the degree of the shared factor.
#[derive(Clone, Copy)]
struct Plan {
    n: usize,
    degree: usize,
    shared: usize,
}

fn draw_plan(draws: &mut Draws, shape: Shape) -> Plan {
    let n = draws.place(GENERATORS - 1) + 2;
    match shape {
        Shape::Plain | Shape::Sparse | Shape::Empty => Plan {
            n,
            degree: draws.place(7),
            shared: 0,
        },
        Shape::Shared => Plan {
            n,
            degree: draws.place(6),
            shared: draws.place(11) + 1,
        },
        Shape::Flat => Plan {
            n,
            degree: 0,
            shared: draws.place(POWERS),
        },
        Shape::Largest | Shape::Scattered => Plan {
            n: GENERATORS,
            degree: POWERS - 1,
            shared: 0,
        },
    }
}

// One polynomial of a row; one in five is zero.
fn draw_factor<F: Field>(draws: &mut Draws, shape: Shape, plan: Plan) -> [u16; POWERS] {
    if shape == Shape::Empty || draws.below(5) == 0 {
        return [0; POWERS];
    }
    match shape {
        Shape::Sparse | Shape::Scattered => {
            draw_polynomial(plan.degree, || u16::from(draws.below(4) == 0))
        }
        _ => draw_polynomial(plan.degree, || draws.code::<F>()),
    }
}

// A row of a shape. No contract: any row serves.
pub fn draw_row<F: Field>(draws: &mut Draws, shape: Shape) -> Row {
    let plan = draw_plan(draws, shape);
    let shared = draw_monic::<F>(draws, plan.shared);
    let mut row = Row::zeros(plan.n);
    for polynomial in row.polynomials.iter_mut().take(plan.n) {
        let factor = draw_factor::<F>(draws, shape, plan);
        add_product::<F>(polynomial, &shared, &factor);
    }
    row
}
