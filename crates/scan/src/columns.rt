// Writing the columns of a frame.
ghost use Rattle.std.specs.Prelude.{◌≡◌, ℕ, ◌*◌, ◌<◌, ◌≤◌, length};
ghost use Rattle.elimination.specs.Steps.{entry_at};
ghost use Rattle.tables.specs.Places.{at, Kept};
ghost use Rattle.scan.specs.Columns.{cell, AtPlaces, CheckAt, Rising};

use crate::row::Row;
use fields::field::Field;
use tables::cells::put;
use tables::rows::scale;
use tables::sizes::{COLUMNS, FRAME, GENERATORS, MAX_COUNT, WIDTH};

// Writes an element at the place q of column j. A column's number is a plain number: a type would say no more than that it is below
// MAX_COUNT.
fn put_at<F: Field>(row: &Row<'_, F>, j: usize, q: usize, value: F, frame: &mut [F])
    requires column { j < MAX_COUNT }
    requires room { (q < row.now.n * WIDTH) × (length frame.old ≡ FRAME) }
    ensures here { at F.ops F.member frame.new (cell row.now.n j q) ≡ F.member value }
    ensures others { Kept F.ops F.member (cell row.now.n j q) 1 frame.old frame.new }
{
    put(
        frame,
        GENERATORS * j + WIDTH * (q % row.n) + q / row.n,
        value,
    );
}

// Writes the first entries of a list at the places of column j.
pub fn write_at<F: Field>(row: &Row<'_, F>, j: usize, places: &[usize], list: &[F], frame: &mut [F])
    requires column { j < MAX_COUNT }
    requires room { (length places.now ≤ length list.now) × (length frame.old ≡ FRAME) }
    requires rising { Rising row.now.n (length places.now) (entry_at places.now) }
    ensures written { AtPlaces F.ops F.member row.now.n j (length places.now) (entry_at places.now) (at F.ops F.member list.now) frame.old frame.new }
    ensures behind { Kept F.ops F.member 0 COLUMNS frame.old frame.new }
{
    for (q, x) in places.iter().zip(list) {
        put_at(row, j, *q, *x, frame);
    }
}

// Writes check column j: one at the place q, and the negated entries of a reduced column at the places before it.
// Six parameters, which no other function takes together.
pub fn write_check<F: Field>(
    row: &Row<'_, F>,
    j: usize,
    q: usize,
    places: &[usize],
    column: &mut [F],
    frame: &mut [F],
)
    requires column { j < MAX_COUNT }
    requires room { (q < row.now.n * WIDTH) × ((length places.now ≤ length column.old) × (length frame.old ≡ FRAME)) }
    requires rising { Rising row.now.n (length places.now) (entry_at places.now) }
    requires before { (t : ℕ) → t < length places.now → entry_at places.now t < q }
    ensures written { CheckAt F.ops F.member row.now.n j q (length places.now) (entry_at places.now) (λ t. F.ops.negative (at F.ops F.member column.old t)) frame.old frame.new }
    ensures behind { Kept F.ops F.member 0 COLUMNS frame.old frame.new }
{
    scale(column, F::one().negate());
    write_at(row, j, places, column, frame);
    put_at(row, j, q, F::one(), frame);
}
