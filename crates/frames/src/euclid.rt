// Euclid's algorithm on two polynomials.
ghost use Rattle.std.specs.Prelude.{◌≡◌, ◌+◌, ◌<◌, ◌≤◌, length};
ghost use Rattle.algebra.specs.Series.{series, Below, Degree};
ghost use Rattle.tables.specs.Places.{at};
ghost use Rattle.frames.specs.Common.{GcdOfPair, SameCommon};

use fields::field::Field;
use polynomials::{degree, reduce};
use tables::rows::swap;

// One step: the left polynomial, which is below s^bound, becomes its remainder by the right one, of degree e, and the two are exchanged.
fn euclid_step<F: Field>(left: &mut [F], right: &mut [F], bound: usize, e: usize)
    requires room { (length left.old ≡ length right.old) × (bound ≤ length left.old) }
    requires below { Below F.ops bound (at F.ops F.member left.old) }
    requires degree { Degree F.ops (at F.ops F.member right.old) e }
    ensures divisors { SameCommon F.ops (at F.ops F.member left.old) (at F.ops F.member right.old) (at F.ops F.member left.new) (at F.ops F.member right.new) }
    ensures upper { Below F.ops (e + 1) (at F.ops F.member left.new) }
    ensures lower { Below F.ops e (at F.ops F.member right.new) }
{
    reduce(&mut left[..bound], right, e);
    swap(left, right);
}

// Leaves at the left a greatest common divisor of the two, and zero at the right.
pub fn euclid<F: Field>(left: &mut [F], right: &mut [F])
    requires { length left.old ≡ length right.old }
    ensures divisors { GcdOfPair F.ops (at F.ops F.member left.old) (at F.ops F.member right.old) (at F.ops F.member left.new) }
    ensures cleared { at F.ops F.member right.new ≡ (series F.ops).zero }
{
    let mut upper = left.len();
    let mut lower = right.len();
    while let Some(e) = degree(&right[..lower]) {
        euclid_step(left, right, upper, e);
        upper = e + 1;
        lower = e;
    }
}
