// Frames made elsewhere: frames changed at random, and the verdict on what is offered.
use crate::blocks::{code_at, column, degree_of, product_with};
use crate::bounds::{Bounds, Echelon};
use crate::codes::{add_shifted, member_of, scale};
use crate::draws::Draws;
use crate::faults::Fault;
use crate::rows::Row;
use crate::sizes::{FRAME, GENERATORS, LENGTH, POWERS, ROW};
use fields::field::Field;

// The columns of a frame by codes: power k of component i of a column at 17 i + k.
#[derive(Clone, Copy)]
pub struct Offered {
    pub columns: [[u16; ROW]; GENERATORS],
}

// Adds x s^by times a column to another; what would pass s^16 is dropped.
fn add_column<F: Field>(column: &mut [u16; ROW], by: usize, x: F, other: &[u16; ROW]) {
    for (sum, component) in column.chunks_mut(POWERS).zip(other.chunks(POWERS)) {
        add_shifted(sum, by, x, component);
    }
}

// What is done to the columns of a frame.
#[derive(Clone, Copy)]
enum Change {
    Replace,
    Scale,
    Swap,
    Add,
    AddShifted,
}

// The changes, one of which is drawn; a shifted multiple is added twice as often as each other is made.
const CHANGES: [Change; 6] = [
    Change::Replace,
    Change::Scale,
    Change::Swap,
    Change::Add,
    Change::AddShifted,
    Change::AddShifted,
];

impl Offered {
    // The columns of a frame table. No contract, here and at the two changes below: the trials offer any columns, and judge those that
    // came of it.
    pub fn of(frame: &[u16; FRAME]) -> Offered {
        let mut columns = [[0; ROW]; GENERATORS];
        for (column, codes) in columns.iter_mut().zip(frame.chunks_exact(ROW)) {
            column.copy_from_slice(codes);
        }
        Offered { columns }
    }

    // Fills the rows and columns from n on, which are not read, with ones.
    pub fn spoil_rest(&mut self, n: usize) {
        for (j, column) in self.columns.iter_mut().enumerate() {
            let read = if j < n { n } else { 0 };
            column
                .chunks_mut(POWERS)
                .skip(read)
                .for_each(|component| component.fill(1));
        }
    }

    // One change: a multiple of another column added, a column multiplied, two columns swapped, or one code changed.
    pub fn change<F: Field>(&mut self, draws: &mut Draws, n: usize) {
        let j = draws.place(n);
        let l = draws.place(n.saturating_sub(1)) + 1;
        let (Some(other), Some(column)) = (self.columns.get(l).copied(), self.columns.get_mut(j))
        else {
            return;
        };
        match CHANGES[draws.place(CHANGES.len())] {
            Change::Replace => {
                let place = draws.place(n.saturating_mul(POWERS));
                let code = draws.code::<F>();
                if let Some(changed) = column.get_mut(place) {
                    *changed = code;
                }
            }
            Change::Scale => scale(column, member_of::<F>(draws.nonzero::<F>())),
            Change::Swap => self.columns.swap(j, l),
            Change::Add => add_column(column, 0, F::one(), &other),
            Change::AddShifted => {
                if j != l {
                    let by = draws.place(3);
                    add_column(column, by, member_of::<F>(draws.nonzero::<F>()), &other);
                }
            }
        }
    }
}

// The coefficients of a column at a power, component by component.
fn leading_list<F: Field>(n: usize, column: &[F], power: usize) -> [u16; LENGTH] {
    let mut list = [0; LENGTH];
    for (x, component) in list.iter_mut().zip(column.chunks(POWERS).take(n)) {
        *x = code_at(component, power);
    }
    list
}

// Whether the check columns are nonzero, with degrees that never fall and add up to d, and independent leading vectors.
fn degrees_are_right<F: Field>(n: usize, offered: &[F], d: usize) -> bool {
    let mut echelon = Echelon::empty();
    let mut before = 0;
    let mut sum = 0usize;
    for column in offered.chunks(ROW).take(n).skip(1) {
        let Some(degree) = degree_of(n, column).filter(|degree| before <= *degree) else {
            return false;
        };
        before = degree;
        sum = sum.saturating_add(degree);
        echelon.insert::<F>(leading_list(n, column, degree));
    }
    sum == d && echelon.rank().saturating_add(1) == n
}

// Whether the leading vector of column 0 is no combination of those of check columns of no higher degree.
fn first_is_outside<F: Field>(n: usize, offered: &[F]) -> bool {
    let first = column(offered, 0);
    let Some(bound) = degree_of(n, first) else {
        return false;
    };
    let mut echelon = Echelon::empty();
    for column in offered.chunks(ROW).take(n).skip(1) {
        if let Some(degree) = degree_of(n, column).filter(|degree| *degree <= bound) {
            echelon.insert::<F>(leading_list(n, column, degree));
        }
    }
    !echelon.spans::<F>(leading_list(n, first, bound))
}

// The first question about columns offered for a row that is not all zero that is answered no. No contract: the trials compare it with what
// the library answers.
pub fn judge<F: Field>(row: &Row, bounds: &Bounds, offered: &[F]) -> Result<(), Fault> {
    if product_with(row, column(offered, 0)) != bounds.divisor {
        return Err(Fault::new(7, 0));
    }
    if let Some(j) = (1..row.n).find(|j| product_with(row, column(offered, *j)) != [0; LENGTH]) {
        return Err(Fault::new(8, j));
    }
    if !degrees_are_right(row.n, offered, bounds.degree) {
        return Err(Fault::new(9, 0));
    }
    if !first_is_outside(row.n, offered) {
        return Err(Fault::new(10, 0));
    }
    Ok(())
}
