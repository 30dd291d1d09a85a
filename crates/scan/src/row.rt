// The row that is scanned.
ghost use Rattle.std.specs.Prelude.{◌≡◌, ◌<◌, ◌≤◌, length};
ghost use Rattle.algebra.specs.Divisors.{VectorDegree};
ghost use Rattle.frames.specs.Rows.{generator_in};
ghost use Rattle.tables.specs.declared.sizes.TheConstants.{GENERATORS, HIGHEST, MAX_COUNT};

use fields::field::Field;

// A row of n polynomials, of which d is the highest degree: the coefficient of s^k of polynomial i at 17 i + k.
// The slice is the whole last part of the work table, with n beside it: of one cut to n polynomials, each use of n would divide a length.
#[derive(Drop)]
pub struct Row<'a, F: Field> {
    pub n: usize,
    pub d: usize,
    pub entries: &'a [F],
    pub ghost sized: { (0 < n) × ((n ≤ MAX_COUNT) × (d ≤ HIGHEST)) },
    pub ghost long: { length entries.now ≡ GENERATORS },
    pub ghost degree: { ∥ VectorDegree F.ops n (generator_in F.ops F.member entries.now) d ∥₁ },
}
