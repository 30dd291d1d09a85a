// Polynomials in slices of tables.
#![tactic(auto)]

ghost use Rattle.std.specs.Prelude.{◌≡◌, ◌+◌, ◌<◌, ◌≤◌, length};
ghost use Rattle.algebra.specs.Divisors.{Divides};
ghost use Rattle.algebra.specs.Series.{series, shift, scale, Below, Degree};
ghost use Rattle.tables.specs.Places.{at};
ghost use Rattle.polynomials.specs.Polynomials.{DegreeOf, LeavesRemainder};

use fields::field::Field;
use tables::cells::inverse_at;
use tables::rows::add_multiple;

// The degree of a polynomial, absent for zero.
pub fn degree<F: Field>(part: &[F]) -> Option<usize>
    ensures { DegreeOf F.ops (length part.now) (at F.ops F.member part.now) result }
{
    part.iter().rposition(|x| !x.same(F::zero()))
}

// Adds to a polynomial the product of two others.
pub fn multiply_into<F: Field>(target: &mut [F], left: &[F], right: &[F])
    requires { length left.now + length right.now ≤ length target.old + 1 }
    ensures { at F.ops F.member target.new ≡ (series F.ops).sum (at F.ops F.member target.old) ((series F.ops).product (at F.ops F.member left.now) (at F.ops F.member right.now)) }
{
    for (k, x) in left.iter().enumerate() {
        add_multiple(target, k, *x, right);
    }
}

// In `cancel`, `reduce`, `divide` and `divide_exactly` a divisor and its degree are two parameters: a struct could keep the fact that joins
// them only as a mere truth, and each proof would have to get the degree back out of it.

// Takes s^power times a multiple of the divisor, of degree e, from the target, so that the coefficient of s^(power + e) becomes zero, and
// answers the factor of that multiple. `inverse` is the inverse of the divisor's leading coefficient.
fn cancel<F: Field>(target: &mut [F], power: usize, divisor: &[F], e: usize, inverse: F) -> F
    requires room { power + e < length target.old }
    requires degree { Degree F.ops (at F.ops F.member divisor.now) e }
    ensures ratio { F.member result ≡ F.ops.product (F.member inverse) (at F.ops F.member target.old (power + e)) }
    ensures rest { at F.ops F.member target.new ≡ (series F.ops).sum (at F.ops F.member target.old) (shift F.ops power (scale F.ops (F.ops.negative (F.member result)) (at F.ops F.member divisor.now))) }
{
    let ratio = inverse.multiply(target[power + e]);
    add_multiple(target, power, ratio.negate(), &divisor[..e + 1]);
    ratio
}

// Leaves in the dividend its remainder by a divisor of degree e.
pub fn reduce<F: Field>(dividend: &mut [F], divisor: &[F], e: usize)
    requires { Degree F.ops (at F.ops F.member divisor.now) e }
    ensures { LeavesRemainder F.ops e (at F.ops F.member dividend.old) (at F.ops F.member divisor.now) (at F.ops F.member dividend.new) }
{
    let inverse = inverse_at(divisor, e);
    // k is the power that is taken away, from the highest down.
    for k in (e..dividend.len()).rev() {
        cancel(dividend, k - e, divisor, e, inverse);
    }
}

// The same, with the quotient written into a cleared slice. The two loops share their step; `reduce` has no place for a quotient.
fn divide<F: Field>(dividend: &mut [F], divisor: &[F], e: usize, quotient: &mut [F])
    requires room { length dividend.old ≤ length quotient.old }
    requires degree { Degree F.ops (at F.ops F.member divisor.now) e }
    requires cleared { at F.ops F.member quotient.old ≡ (series F.ops).zero }
    ensures division { at F.ops F.member dividend.old ≡ (series F.ops).sum ((series F.ops).product (at F.ops F.member divisor.now) (at F.ops F.member quotient.new)) (at F.ops F.member dividend.new) }
    ensures small { Below F.ops e (at F.ops F.member dividend.new) }
{
    let inverse = inverse_at(divisor, e);
    // k is the power that is taken away, from the highest down.
    for k in (e..dividend.len()).rev() {
        quotient[k - e] = cancel(dividend, k - e, divisor, e, inverse);
    }
}

// Divides by a divisor of degree e that leaves no remainder: the quotient goes to a cleared slice, and the dividend is left cleared.
pub fn divide_exactly<F: Field>(dividend: &mut [F], divisor: &[F], e: usize, quotient: &mut [F])
    requires room { length dividend.old ≤ length quotient.old }
    requires degree { Degree F.ops (at F.ops F.member divisor.now) e }
    requires divides { Divides F.ops (at F.ops F.member divisor.now) (at F.ops F.member dividend.old) }
    requires cleared { at F.ops F.member quotient.old ≡ (series F.ops).zero }
    ensures quotient { (series F.ops).product (at F.ops F.member divisor.now) (at F.ops F.member quotient.new) ≡ at F.ops F.member dividend.old }
    ensures cleared { at F.ops F.member dividend.new ≡ (series F.ops).zero }
{
    divide(dividend, divisor, e, quotient);
}
