// The columns of an offer as a table.
use crate::elements::zeros;
use crate::stopped::Stopped;
use fields::fault::FieldFault;
use fields::field::Field;
use std::alloc::Global;
use tables::sizes::{COLUMNS, GENERATORS, MAX_COUNT, WIDTH};

// Whether a column has no more components than a frame has, and each no more coefficients.
fn column_fits(column: &[Vec<u32>]) -> bool {
    column.len() <= MAX_COUNT && column.iter().all(|component| component.len() <= WIDTH)
}

// Whether there are no more columns than in a frame, and each fits.
fn columns_fit(columns: &[Vec<Vec<u32>>]) -> bool {
    columns.len() <= MAX_COUNT && columns.iter().all(|column| column_fits(column))
}

// Writes the coefficients of a component, as far as there are places.
// No `zip` here and below: a code past the last place is still judged.
fn write_component<F: Field>(table: &mut [F], codes: &[u32]) -> Result<(), FieldFault> {
    let mut places = table.iter_mut();
    for code in codes {
        let x = F::element(*code)?;
        if let Some(place) = places.next() {
            *place = x;
        }
    }
    Ok(())
}

// Writes a column.
fn write_column<F: Field>(table: &mut [F], column: &[Vec<u32>]) -> Result<(), FieldFault> {
    let mut parts = table.chunks_mut(WIDTH);
    for component in column {
        write_component(parts.next().unwrap_or(&mut []), component)?;
    }
    Ok(())
}

// Writes the columns, one behind the other.
fn write_columns<F: Field>(table: &mut [F], columns: &[Vec<Vec<u32>>]) -> Result<(), FieldFault> {
    let mut parts = table.chunks_mut(GENERATORS);
    for column in columns {
        write_column(parts.next().unwrap_or(&mut []), column)?;
    }
    Ok(())
}

// The offered table. Columns that do not fit give a table that is longer by 1, so that the call itself refuses it.
pub fn offered<F: Field>(heap: Global, columns: &[Vec<Vec<u32>>]) -> Result<Vec<F>, Stopped> {
    let length = if columns_fit(columns) {
        COLUMNS
    } else {
        COLUMNS + 1
    };
    let mut table = zeros(heap, length)?;
    write_columns(&mut table, columns)?;
    Ok(table)
}
