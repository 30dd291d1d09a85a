// The lists at the places of a row, written into a column.
ghost use Rattle.std.specs.Prelude.{◌≡◌, ℕ, suc, ◌+◌, ◌*◌, ◌<◌, length};
ghost use Rattle.algebra.specs.Places.{place_list};
ghost use Rattle.algebra.specs.Series.{series};
ghost use Rattle.frames.specs.Rows.{generator_in};
ghost use Rattle.tables.specs.Places.{at};

use crate::row::Row;
use fields::field::Field;
use tables::cells::put;
use tables::clear;
use tables::rows::copy_from;
use tables::sizes::WIDTH;

// Writes the list at the place q: the coefficients of s^(q / n) times polynomial q % n of a row.
pub fn write_list<F: Field>(row: &Row<'_, F>, q: usize, column: &mut [F])
    requires { (length column.old ≡ suc (row.now.d + row.now.d)) × (q < row.now.n * suc row.now.d) }
    ensures { (k : ℕ) → k < suc (row.now.d + row.now.d) → at F.ops F.member column.new k ≡ place_list F.ops row.now.n (generator_in F.ops F.member row.now.entries.now) q k }
{
    clear(column);
    copy_from(
        row.entries,
        WIDTH * (q % row.n),
        column,
        q / row.n,
        row.d + 1,
    );
}

// Writes the unit list.
pub fn write_unit<F: Field>(column: &mut [F])
    requires { 0 < length column.old }
    ensures { (k : ℕ) → at F.ops F.member column.new k ≡ (series F.ops).one k }
{
    clear(column);
    put(column, 0, F::one());
}
