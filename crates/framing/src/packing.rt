// The degrees of a frame's columns.
ghost use Rattle.std.specs.Prelude.{◌≡◌, ℕ, ◌+◌, ◌-◌, ◌*◌, ◌^◌, ◌<◌, ◌≤◌, length};
ghost use Rattle.algebra.specs.Divisors.{AllZero};
ghost use Rattle.framing.specs.Framing.{column_in, DegreesFrom};

use fields::field::Field;
use frames::row::row_degree;
use tables::sizes::{FRAME, GENERATORS, MAX_COUNT};

// The degrees of the columns from j on, that of the first in the lowest byte. j is 0 in every call of these crates, and stays, since the
// call is public.
pub fn pack_degrees<F: Field>(n: usize, frame: &[F], j: usize) -> u64
    requires room { (j ≤ n) × ((n ≤ MAX_COUNT) × (length frame.now ≡ FRAME)) }
    requires nonzero { (k : ℕ) → k < n → AllZero F.ops n (column_in F.ops F.member frame.now k) → ⊥ }
    ensures degrees { DegreesFrom F.ops F.member n frame.now j result }
    ensures bound { result < 256 ^ (n - j) }
{
    let mut packed = 0;
    let columns = frame[GENERATORS * j..GENERATORS * n].chunks_exact(GENERATORS);
    // The highest goes first. `u64::from_le_bytes` would take an array, filled by number, and a cast of each degree to a byte.
    for column in columns.rev() {
        packed = row_degree(n, column) as u64 + 256 * packed;
    }
    packed
}
