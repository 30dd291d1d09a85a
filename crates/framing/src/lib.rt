// The frame of a row of generators, whole, in lent tables.
#![tactic(auto)]

ghost use Rattle.std.specs.Prelude.{◌≡◌, ℕ, ◌<◌, ◌≤◌, length, MatchOption};
ghost use Rattle.algebra.specs.Divisors.{AllZero};
ghost use Rattle.frames.specs.Rows.{generator_in};
ghost use Rattle.tables.specs.Places.{Cleared};
ghost use Rattle.framing.specs.Framing.{column_in, DegreesFrom, HoldsFrame};

use crate::packing::pack_degrees;
use fields::field::Field;
use frames::row::{Degrees, divide_by_gcd};
use scan::write_frame;
use tables::clear;
use tables::sizes::{FRAME, GENERATORS, MAX_COUNT, WORK};

pub mod packing;

// What is known of a frame: the degree of the divided generators, that of the divisor, and those of the columns, packed.
// Packed, since a framed design gives them to callers as one number. The first two are the fields of `Degrees` once more: the promises of
// the public calls name them `x.degree` and `x.divisor`.
#[derive(Clone, Copy, PartialEq, Eq, Debug)]
pub struct Numbers {
    pub degree: usize,
    pub divisor: usize,
    pub columns: u64,
}

impl Numbers {
    // The numbers of the n columns of a frame table, by the degrees of the divided generators and of the divisor.
    pub fn of<F: Field>(n: usize, degrees: Degrees, frame: &[F]) -> Numbers
        requires room { (n ≤ MAX_COUNT) × (length frame.now ≡ FRAME) }
        requires nonzero { (k : ℕ) → k < n → AllZero F.ops n (column_in F.ops F.member frame.now k) → ⊥ }
        ensures degrees { (result.degree ≡ degrees.row) × (result.divisor ≡ degrees.divisor) }
        ensures columns { DegreesFrom F.ops F.member n frame.now 0 result.columns }
    {
        Numbers {
            degree: degrees.row,
            divisor: degrees.divisor,
            columns: pack_degrees(n, frame, 0),
        }
    }
}

// Writes the frame of the first n generators, absent where they are all zero, and leaves the work table at zero.
// n stands beside the whole table, here and in `Numbers::of`: contracts name the table of all generators, and n is no length of it.
pub fn frame_row<F: Field>(
    n: usize,
    generators: &[F],
    frame: &mut [F],
    work: &mut [F],
) -> Option<Numbers>
    requires sized { (2 ≤ n) × (n ≤ MAX_COUNT) }
    requires room { (length generators.now ≡ GENERATORS) × ((length frame.old ≡ FRAME) × (length work.old ≡ WORK)) }
    ensures answer { MatchOption result (AllZero F.ops n (generator_in F.ops F.member generators.now) × (frame.new ≡ frame.old)) (λ x. HoldsFrame F.ops F.member n generators.now frame.new x.degree x.divisor x.columns) }
    ensures cleared { Cleared F.ops F.member work.new }
{
    let degrees = divide_by_gcd(n, generators, work)?;
    write_frame(n, degrees.row, work, frame);
    clear(work);
    Some(Numbers::of(n, degrees, frame))
}
