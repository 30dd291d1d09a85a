// Rows framed by the library and by the second solver. Refusals by their numbers, which docs/refusals.md promises, as everywhere in the
// trials. Each function takes what it compares, and no two take the same; offers.rt asks two of them of its own, so no struct holds all.
use crate::station::{Tables, all_are, enter, holds, mark};
use design::framed::Framed;
use fields::fault::Refusal;
use fields::field::Field;
use trial_support::blocks::{column, component, degree_of, differences, product_with};
use trial_support::bounds::{Bounds, bound};
use trial_support::rows::Row;
use trial_support::sizes::{COLUMNS, GENERATORS, LENGTH, POWERS, ROW};
use trial_support::solver::solve;

// How many columns, and components of each, are asked for: one more than there can be.
const TRIED: usize = GENERATORS + 1;

// Whether a frame is right by all routes.
pub(crate) fn frame_agrees<F: Field>(row: &Row, framed: &Framed, frame: &[F]) -> bool {
    let bounds = bound::<F>(row);
    holds(frame, &solve::<F>(row))
        && numbers_agree(row, framed, &bounds)
        && bounds.rank == bounds.degree.saturating_mul(2).saturating_add(1)
        && degrees_agree(frame, &bounds)
        && holds_divisor(frame, &bounds)
        && products_agree(row, frame, &bounds)
        && components_agree(framed, frame)
}

// Whether the numbers that a framed design keeps are those that the degree bounds give. It keeps 0 for a column that is not there.
pub fn numbers_agree(row: &Row, framed: &Framed, bounds: &Bounds) -> bool {
    let degrees = framed.columns().to_le_bytes();
    framed.generators() == row.n
        && framed.degree() == bounds.degree
        && framed.divisor_degree() == bounds.divisor_degree
        && bounds.degrees[0].is_some()
        && degrees
            .iter()
            .zip(bounds.degrees.iter())
            .all(|(kept, least)| usize::from(*kept) == least.unwrap_or(0))
}

// Whether the columns, as they stand in the table, have their least degrees.
fn degrees_agree<F: Field>(frame: &[F], bounds: &Bounds) -> bool {
    let mut degrees = bounds.degrees.iter().zip(frame.chunks(ROW));
    degrees.all(|(least, column)| degree_of(GENERATORS, column) == *least)
}

// Whether a frame table ends with the divisor.
pub(crate) fn holds_divisor<F: Field>(frame: &[F], bounds: &Bounds) -> bool {
    frame
        .get(COLUMNS..)
        .is_some_and(|divisor| holds(divisor, &bounds.divisor[..POWERS]))
}

// Whether the row times each column is the divisor, for column 0, or zero.
fn products_agree<F: Field>(row: &Row, frame: &[F], bounds: &Bounds) -> bool {
    let mut columns = frame.chunks(ROW).take(row.n).enumerate();
    columns.all(|(j, column)| {
        let expected = if j == 0 { bounds.divisor } else { [0; LENGTH] };
        product_with(row, column) == expected
    })
}

// Whether a component of a column is handed out as that part of the table.
fn component_agrees<F: Field>(framed: &Framed, frame: &[F], i: usize, j: usize) -> bool {
    match framed.column(frame, i, j) {
        Ok(part) => {
            part.len() == POWERS && differences(part, component(column(frame, j), i)) == 0
        }
        Err(fault) => {
            fault.number() == 3 && (framed.generators() <= i || framed.generators() <= j)
        }
    }
}

// Whether all components of all columns, and none past them, are handed out.
fn components_agree<F: Field>(framed: &Framed, frame: &[F]) -> bool {
    (0..TRIED).all(|j| (0..TRIED).all(|i| component_agrees(framed, frame, i, j)))
}

// Whether a row that is all zero is refused with 6, and the frame is left as it was.
pub fn refusal_agrees<F: Field + Drop>(row: &Row, tables: &mut Tables<F>) -> bool {
    mark(tables.frame.as_mut_slice());
    let Ok(draft) = enter(row, tables.generators.as_mut_slice()) else {
        return false;
    };
    let framed = draft.frame(
        tables.generators.as_slice(),
        tables.frame.as_mut_slice(),
        tables.work.as_mut_slice(),
    );
    framed.is_err_and(|back| back.fault.number() == 6 && back.design.count() == row.n)
        && all_are(tables.frame.as_slice(), 1)
        && all_are(tables.work.as_slice(), 0)
}

// Whether reopening gives a draft of as many generators and a frame of zeros.
pub fn reopening_agrees<F: Field>(framed: Framed, frame: &mut [F]) -> bool {
    let n = framed.generators();
    framed.reopen(frame).is_ok_and(|draft| draft.count() == n) && all_are(frame, 0)
}
