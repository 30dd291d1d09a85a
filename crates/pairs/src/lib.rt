// Pairs u + v·z over any field with a quadratic z·z + t·z + c that has no root.
#![tactic(auto)]

ghost use Rattle.std.specs.Prelude.{◌≡◌, ℕ, ◌+◌, ◌*◌, ◌<◌};
ghost use Rattle.pairs.specs.Pairs.{PairMember, pair, norm, pair_ops, pair_number};
ghost use Rattle.pairs.specs.Laws.{pair_field, pair_invertible};
ghost use Rattle.pairs.specs.Codes.{decide_zero, pair_numbering};

use fields::fault::FieldFault;
use fields::field::Field;
use fields::quadratic::Quadratic;

// low + high·z, where z·z = −t·z − c.
#[derive(Clone, Copy, Debug)]
pub struct Pair<F> {
    pub low: F,
    pub high: F,
}

fn subtract<F: Field>(x: F, y: F) -> F
    ensures { F.member result ≡ F.ops.sum (F.member x) (F.ops.negative (F.member y)) }
{
    x.add(y.negate())
}

// The norm: the conjugate divided by it is the inverse.
fn divisor<F: Quadratic>(x: Pair<F>) -> F
    ensures { F.Field.member result ≡ norm F.Field.ops (F.Field.member F.Quadratic.linear) (F.Field.member F.Quadratic.constant) (pair (F.Field.member x.low) (F.Field.member x.high)) }
{
    let squares = x.low.multiply(x.low);
    let mixed = F::t().multiply(x.low).multiply(x.high);
    let last = F::c().multiply(x.high).multiply(x.high);
    subtract(squares, mixed).add(last)
}

impl<F: Quadratic> Field for Pair<F> {
    ghost Member = { PairMember F.Field.Member };

    ghost ops = { pair_ops F.Field.ops (F.Field.member F.Quadratic.linear) (F.Field.member F.Quadratic.constant) };

    ghost member = { λ x. pair (F.Field.member x.low) (F.Field.member x.high) };

    ghost order = { F.Field.order * F.Field.order };

    ghost number = { pair_number F.Field.order F.Field.number };

    ghost tag = { F.Field.tag + 2 };

    ghost laws = { pair_field F.Field.ops _ _ F.Field.laws };

    ghost invertible = { pair_invertible F.Field.ops _ _ F.Field.laws (decide_zero F.Field.numbered) F.Field.invertible F.Quadratic.rootless };

    ghost numbered = { pair_numbering F.Field.numbered _ _ };

    fn zero() -> Pair<F> {
        Pair {
            low: F::zero(),
            high: F::zero(),
        }
    }

    fn one() -> Pair<F> {
        Pair {
            low: F::one(),
            high: F::zero(),
        }
    }

    fn add(self, other: Pair<F>) -> Pair<F> {
        Pair {
            low: self.low.add(other.low),
            high: self.high.add(other.high),
        }
    }

    fn negate(self) -> Pair<F> {
        Pair {
            low: self.low.negate(),
            high: self.high.negate(),
        }
    }

    fn multiply(self, other: Pair<F>) -> Pair<F> {
        let square = self.high.multiply(other.high);
        let mixed = self
            .low
            .multiply(other.high)
            .add(self.high.multiply(other.low));
        Pair {
            low: subtract(self.low.multiply(other.low), F::c().multiply(square)),
            high: subtract(mixed, F::t().multiply(square)),
        }
    }

    fn inverse(self) -> Option<Pair<F>> {
        let conjugate = Pair {
            low: subtract(self.low, F::t().multiply(self.high)),
            high: self.high.negate(),
        };
        let over = divisor(self).inverse()?;
        Some(Pair {
            low: conjugate.low.multiply(over),
            high: conjugate.high.multiply(over),
        })
    }

    fn same(self, other: Pair<F>) -> bool {
        self.low.same(other.low) && self.high.same(other.high)
    }

    fn size() -> u32 {
        F::size() * F::size()
    }

    // The cast is proved to lose nothing; `try_from` would need an `unwrap`.
    fn code(self) -> u16 {
        (u32::from(self.low.code()) + F::size() * u32::from(self.high.code())) as u16
    }

    fn element(code: u32) -> Result<Pair<F>, FieldFault> {
        let size = F::size();
        let high = F::element(code / size)?;
        let low = F::element(code % size)?;
        Ok(Pair { low, high })
    }

    fn kind() -> u8 {
        F::kind() + 2
    }
}
