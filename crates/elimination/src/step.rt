// One step of elimination on a column. Its clauses say what the code does; what it is for stands on the methods of `Steps`.
ghost use Rattle.std.specs.Prelude.{◌≡◌, ℕ, ◌+◌, ◌*◌, ◌<◌, ◌≤◌, length, MatchOption};
ghost use Rattle.tables.specs.Places.{at};
ghost use Rattle.elimination.specs.Steps.{step as after_step, reduced, column_at, entry_at, write, AreSteps, IsPivot};

use fields::field::Field;
use tables::rows::add_multiple;

// Performs step t, whose pivot row is p, on a column.
pub fn apply_step<F: Field>(factors: &[F], t: usize, p: usize, column: &mut [F])
    requires sized { length factors.now ≡ length column.old }
    requires within { (t < length column.old) × (p < length column.old) }
    ensures { at F.ops F.member column.new ≡ after_step F.ops (at F.ops F.member factors.now) t p (at F.ops F.member column.old) }
{
    let product = factors[p].multiply(column[p]);
    let exchanged = column[t];
    add_multiple(column, 0, product.negate(), factors);
    column[p] = exchanged;
    column[t] = product;
}

// The numbers of step t. By its ends, since chunks of no rows are refused.
fn factors_of<F: Field>(rows: usize, steps: &[F], t: usize) -> &[F]
    requires { rows * t + rows ≤ length steps.now }
    ensures value { at F.ops F.member result.now ≡ column_at F.ops F.member rows steps.now t }
    ensures len { length result.now ≡ rows }
{
    &steps[rows * t..rows * t + rows]
}

// Brings a column up to date by the first steps. No `zip` with the chunks of the factors, since chunks of no rows are refused.
pub fn reduce<F: Field>(rows: usize, rank: usize, factors: &[F], pivots: &[usize], column: &mut [F])
    requires room { (rows * rank ≤ length factors.now) × ((rank ≤ length pivots.now) × (length column.old ≡ rows)) }
    requires valid { AreSteps F.ops rows rank (column_at F.ops F.member rows factors.now) (entry_at pivots.now) }
    ensures { at F.ops F.member column.new ≡ reduced F.ops (column_at F.ops F.member rows factors.now) (entry_at pivots.now) rank (at F.ops F.member column.old) }
{
    for (t, pivot) in pivots[..rank].iter().enumerate() {
        apply_step(factors_of(rows, factors, t), t, *pivot, column);
    }
}

// A row in which a column has an entry that is not zero, and the inverse of the entry.
#[derive(Clone, Copy)]
pub struct Pivot<F: Field> {
    pub row: usize,
    pub inverse: F,
}

// The first pivot of a column from a row on.
pub fn find_pivot<F: Field>(column: &[F], rank: usize) -> Option<Pivot<F>>
    ensures { MatchOption result ((k : ℕ) → rank ≤ k → at F.ops F.member column.now k ≡ F.ops.zero) (λ p. IsPivot F.ops (length column.now) rank (at F.ops F.member column.now) p.row (F.member p.inverse)) }
{
    let mut entries = column.iter().enumerate().skip(rank);
    entries.find_map(|(row, x)| x.inverse().map(|inverse| Pivot { row, inverse }))
}

// Writes the numbers of the step of a reduced column and its pivot behind those of the first steps.
pub fn record_step<F: Field>(
    rows: usize,
    rank: usize,
    factors: &mut [F],
    column: &[F],
    pivot: Pivot<F>,
)
    requires room { (rows * rank + rows ≤ length factors.old) × ((length column.now ≡ rows) × (pivot.row < rows)) }
    ensures here { column_at F.ops F.member rows factors.new rank ≡ write pivot.row (F.member pivot.inverse) (at F.ops F.member column.now) }
    ensures others { (k : ℕ) → k < rows * rank → at F.ops F.member factors.new k ≡ at F.ops F.member factors.old k }
{
    let start = rows * rank;
    let step = &mut factors[start..start + rows];
    step.copy_from_slice(column);
    step[pivot.row] = pivot.inverse;
}
