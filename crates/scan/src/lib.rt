// The columns of the degree-optimal frame of a divided row.
#![tactic(auto)]

ghost use Rattle.std.specs.Prelude.{◌≡◌, ℕ, suc, ◌+◌, ◌-◌, ◌<◌, ◌≤◌, length};
ghost use Rattle.algebra.specs.Divisors.{Combination, VectorDegree};
ghost use Rattle.algebra.specs.Frames.{FrameColumns};
ghost use Rattle.algebra.specs.Series.{series};
ghost use Rattle.frames.specs.Rows.{column_in, generator_in, gcd_in, quotient_in};
ghost use Rattle.tables.specs.Places.{at, Kept, poly_at};
ghost use Rattle.scan.specs.Columns.{ZeroPast};

use crate::row::Row;
use crate::walk::Walk;
use fields::field::Field;
use frames::row::{DIVISOR, ROW};
use tables::clear;
use tables::rows::copy_from;
use tables::sizes::{COLUMNS, FRAME, HIGHEST, MAX_COUNT, PRODUCT, WIDTH, WORK};

mod columns;
mod lists;
mod places;
mod row;
mod walk;

// How many rows a list has, at most.
const ROWS: usize = PRODUCT;

// How many factors the steps of elimination have, at most.
const FACTORS: usize = ROWS * ROWS;

// Writes the frame columns of a row into a cleared frame, by way of two tables.
fn scan<F: Field>(row: Row<'_, F>, factors: &mut [F], column: &mut [F], frame: &mut [F])
    requires room { (length factors.old ≡ FACTORS) × ((length column.old ≡ suc (row.d + row.d)) × (length frame.old ≡ FRAME)) }
    requires coprime { Combination F.ops row.n (generator_in F.ops F.member row.entries.now) (series F.ops).one }
    requires cleared { (k : ℕ) → k < COLUMNS → at F.ops F.member frame.old k ≡ F.ops.zero }
    ensures columns { (p : ℕ → ℕ) × FrameColumns F.ops (row.entry.n - 1) row.entry.d (generator_in F.ops F.member row.entry.entries.now) p (column_in F.ops F.member frame.new) }
    ensures rest { ZeroPast F.ops F.member row.entry.n frame.new }
    ensures behind { Kept F.ops F.member 0 COLUMNS frame.old frame.new }
{
    let mut pivots = [0usize; ROWS];
    let mut walk = Walk::new(row, factors, &mut pivots, column);
    walk.walk(frame);
    walk.write_first(frame);
}

// Writes the degree-optimal frame of the divided row in a work table, whose greatest common divisor is 1, into a frame table: the
// coefficient of s^k of component i of column j at 136 j + 17 i + k, the divisor behind the columns, and zero elsewhere. The work table is
// left with any contents.
pub fn write_frame<F: Field>(n: usize, d: usize, work: &mut [F], frame: &mut [F])
    requires sized { (0 < n) × ((n ≤ MAX_COUNT) × (d ≤ HIGHEST)) }
    requires room { (length work.old ≡ WORK) × (length frame.old ≡ FRAME) }
    requires degree { VectorDegree F.ops n (quotient_in F.ops F.member work.old) d }
    requires coprime { Combination F.ops n (quotient_in F.ops F.member work.old) (series F.ops).one }
    ensures columns { (p : ℕ → ℕ) × FrameColumns F.ops (n - 1) d (quotient_in F.ops F.member work.old) p (column_in F.ops F.member frame.new) }
    ensures divisor { poly_at F.ops F.member frame.new COLUMNS WIDTH ≡ gcd_in F.ops F.member work.old }
    ensures rest { ZeroPast F.ops F.member n frame.new }
{
    clear(&mut frame[..COLUMNS]);
    copy_from(work, DIVISOR, frame, COLUMNS, WIDTH);
    let (tables, entries) = work.split_at_mut(ROW);
    let row = Row { n, d, entries };
    let (factors, rest) = tables.split_at_mut(FACTORS);
    scan(row, factors, &mut rest[..2 * d + 1], frame);
}
