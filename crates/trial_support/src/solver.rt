// The second solver's frame, laid out as the library's.
use crate::reduction::Basis;
use crate::rows::Row;
use crate::sizes::{COLUMNS, FRAME, ROW};
use crate::vectors::Vector;
use fields::field::Field;

// Writes the vectors that are not zero as columns.
fn write_columns(columns: &mut [u16], vectors: &[Vector]) {
    let standing = vectors.iter().filter(|vector| vector.leading().is_some());
    for (column, vector) in columns.chunks_mut(ROW).zip(standing) {
        vector.write_column(column);
    }
}

// The frame table, by codes, of a row that is not all zero. No contract: it would be the route once more. The trials multiply the row with each
// column, and compare the degrees with the bounds.
pub fn solve<F: Field>(row: &Row) -> [u16; FRAME] {
    let mut basis = Basis::begin(row);
    basis.reduce_leading::<F>();
    basis.reduce_tails::<F>();
    basis.put_in_order::<F>();
    let mut frame = [0; FRAME];
    let (columns, divisor) = frame.split_at_mut(COLUMNS);
    write_columns(columns, &basis.vectors);
    basis.vectors[0].write_product(divisor);
    frame
}
