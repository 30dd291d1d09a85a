// The monic greatest common divisor of a row of generators, and the row divided by it, in a work table.
// A number n stands beside a whole table: rows cut down to n would make each contract speak of a part of its caller's table.
ghost use Rattle.std.specs.Prelude.{◌≡◌, ℕ, ◌*◌, ◌<◌, ◌≤◌, length, MatchOption};
ghost use Rattle.algebra.specs.Divisors.{Divides, AllZero};
ghost use Rattle.algebra.specs.Series.{series, Degree};
ghost use Rattle.tables.specs.Places.{at, Cleared};
ghost use Rattle.frames.specs.Common.{GcdOfFirst, MadeMonic};
ghost use Rattle.frames.specs.Rows.{generator_in, row_in, Highest, DividedByGcd};

use crate::euclid::euclid;
use fields::field::Field;
use polynomials::{degree, divide_exactly};
use tables::cells::inverse_at;
use tables::clear;
use tables::rows::scale;
use tables::sizes::{GENERATORS, HIGHEST, MAX_COUNT, WIDTH, WORK};

// Where the divided row begins: it is the last part of the work table.
pub const ROW: usize = WORK - GENERATORS;

// Where the divisor stands in the work table: before the divided row.
pub const DIVISOR: usize = ROW - WIDTH;

// The degrees of a row's greatest common divisor and of the row divided by it.
#[derive(Clone, Copy, PartialEq, Eq, Debug)]
pub struct Degrees {
    pub divisor: usize,
    pub row: usize,
}

// Leaves in `divisor`, which was zero, a greatest common divisor of the first n generators, and zero in `spare`.
fn gather<F: Field>(n: usize, generators: &[F], spare: &mut [F], divisor: &mut [F])
    requires room { (WIDTH * n ≤ length generators.now) × ((length spare.old ≡ WIDTH) × (length divisor.old ≡ WIDTH)) }
    requires cleared { (at F.ops F.member spare.old ≡ (series F.ops).zero) × (at F.ops F.member divisor.old ≡ (series F.ops).zero) }
    ensures divisors { GcdOfFirst F.ops n (generator_in F.ops F.member generators.now) (at F.ops F.member divisor.new) }
    ensures rest { at F.ops F.member spare.new ≡ (series F.ops).zero }
{
    for generator in generators[..WIDTH * n].chunks_exact(WIDTH) {
        spare.copy_from_slice(generator);
        euclid(divisor, spare);
    }
}

// Makes the divisor monic and answers its degree; a divisor that is zero stays.
fn make_monic<F: Field>(divisor: &mut [F]) -> Option<usize>
    requires { length divisor.old ≡ WIDTH }
    ensures { MadeMonic F.ops (at F.ops F.member divisor.old) (at F.ops F.member divisor.new) result }
{
    let e = degree(divisor)?;
    let inverse = inverse_at(divisor, e);
    scale(divisor, inverse);
    Some(e)
}

// Divides the first n generators by the divisor, which is of degree e and divides each of them. The parts of the work table are lent one by
// one, since no other function takes these together.
fn divide_row<F: Field>(
    n: usize,
    generators: &[F],
    spare: &mut [F],
    divisor: &[F],
    e: usize,
    row: &mut [F],
)
    requires room { (WIDTH * n ≤ length generators.now) × ((length spare.old ≡ WIDTH) × (WIDTH * n ≤ length row.old)) }
    requires degree { Degree F.ops (at F.ops F.member divisor.now) e }
    requires divides { (i : ℕ) → i < n → Divides F.ops (at F.ops F.member divisor.now) (generator_in F.ops F.member generators.now i) }
    requires cleared { (at F.ops F.member spare.old ≡ (series F.ops).zero) × (Cleared F.ops F.member row.old) }
    ensures row { (i : ℕ) → i < n → (series F.ops).product (at F.ops F.member divisor.now) (row_in F.ops F.member row.new 0 i) ≡ generator_in F.ops F.member generators.now i }
    ensures behind { (k : ℕ) → WIDTH * n ≤ k → at F.ops F.member row.new k ≡ F.ops.zero }
    ensures rest { at F.ops F.member spare.new ≡ (series F.ops).zero }
{
    for (i, generator) in generators[..WIDTH * n].chunks_exact(WIDTH).enumerate() {
        // A proof knows nothing of what was written through `chunks_exact_mut`.
        let start = WIDTH * i;
        spare.copy_from_slice(generator);
        divide_exactly(spare, divisor, e, &mut row[start..start + WIDTH]);
    }
}

// The highest degree of the first n polynomials of a row; 0 where every one is zero, as `Highest` has it.
pub fn row_degree<F: Field>(n: usize, row: &[F]) -> usize
    requires { WIDTH * n ≤ length row.now }
    ensures value { Highest F.ops n (row_in F.ops F.member row.now 0) result }
    ensures bound { result ≤ HIGHEST }
{
    // By the index: over tones a chain over chunks needs twice the instructions where most coefficients are zero.
    let mut highest = 0;
    for i in 0..n {
        highest = highest.max(degree(&row[WIDTH * i..WIDTH * i + WIDTH]).unwrap_or(0));
    }
    highest
}

// Writes the monic greatest common divisor of the first n generators and the row divided by it into the work table, whose other places
// become zero, and answers their degrees; absent where every generator is zero.
pub fn divide_by_gcd<F: Field>(n: usize, generators: &[F], work: &mut [F]) -> Option<Degrees>
    requires { (n ≤ MAX_COUNT) × ((length generators.now ≡ GENERATORS) × (length work.old ≡ WORK)) }
    ensures { MatchOption result (AllZero F.ops n (generator_in F.ops F.member generators.now) × Cleared F.ops F.member work.new) (λ d. DividedByGcd F.ops F.member n generators.now work.new d.divisor d.row) }
{
    clear(work);
    let (tables, row) = work.split_at_mut(ROW);
    let (front, divisor) = tables.split_at_mut(DIVISOR);
    let (spare, _) = front.split_at_mut(WIDTH);
    gather(n, generators, spare, divisor);
    let e = make_monic(divisor)?;
    divide_row(n, generators, spare, divisor, e, row);
    Some(Degrees {
        divisor: e,
        row: row_degree(n, row),
    })
}
