// The second solver's route to ranks and least degrees: one degree bound after the other, by an elimination of its own.
ghost use Rattle.std.specs.Prelude.{◌<◌};

use crate::codes::{add_shifted, inverse, member_of, scale, top_of};
use crate::rows::Row;
use crate::sizes::{GENERATORS, LENGTH, POWERS};
use fields::field::Field;

// Lists with distinct degrees, each monic and at the place of its degree.
#[derive(Clone, Copy)]
pub struct Echelon {
    lists: [Option<[u16; LENGTH]>; LENGTH],
}

impl Echelon {
    pub fn empty() -> Echelon {
        Echelon {
            lists: [None; LENGTH],
        }
    }

    // What is left of a list when the lists that stand at its powers are taken away, from the top down. By place, since the rest
    // changes meanwhile.
    fn reduce<F: Field>(&self, list: [u16; LENGTH]) -> [u16; LENGTH] {
        let mut rest = list;
        for (k, standing) in self.lists.iter().enumerate().rev() {
            if let Some(standing) = standing {
                let x = member_of::<F>(rest[k]).negate();
                add_shifted(&mut rest, 0, x, standing);
            }
        }
        rest
    }

    // Takes a list in; one that is a combination of the others changes nothing.
    pub fn insert<F: Field>(&mut self, list: [u16; LENGTH]) {
        let mut rest = self.reduce::<F>(list);
        if let Some(top) = top_of(&rest) {
            let x = inverse::<F>(rest[top]);
            scale(&mut rest, x);
            self.lists[top] = Some(rest);
        }
    }

    // How many lists stand.
    pub fn rank(&self) -> usize {
        self.lists.iter().filter(|list| list.is_some()).count()
    }

    // Whether a list is a combination of those taken in.
    pub fn spans<F: Field>(&self, list: [u16; LENGTH]) -> bool {
        top_of(&self.reduce::<F>(list)).is_none()
    }

    // Takes in s^k times each polynomial of a row.
    fn insert_power<F: Field>(&mut self, row: &Row, k: usize)
        requires { k < POWERS }
    {
        for polynomial in row.polynomials() {
            self.insert::<F>(shifted(polynomial, k));
        }
    }

    // The list of least degree.
    fn least(&self) -> Option<[u16; LENGTH]> {
        self.lists.iter().find_map(|list| *list)
    }
}

// s^k times a polynomial.
fn shifted(polynomial: &[u16; POWERS], k: usize) -> [u16; LENGTH]
    requires { k < POWERS }
{
    let mut list = [0; LENGTH];
    list[k..k + POWERS].copy_from_slice(polynomial);
    list
}

// What is known of a row's frame without its columns.
#[derive(Clone, Copy)]
pub struct Bounds {
    // The divisor, monic.
    pub divisor: [u16; LENGTH],
    pub divisor_degree: usize,
    // The degree of the row divided by it.
    pub degree: usize,
    // The rank of the lists up to that degree: how many places are pivotal.
    pub rank: usize,
    // The least degrees of the columns, absent from n on.
    pub degrees: [Option<usize>; GENERATORS],
}

// The ranks of the lists up to each power, and the polynomial of least degree among all combinations, which is the divisor.
fn ranks<F: Field>(row: &Row) -> ([usize; POWERS], [u16; LENGTH]) {
    let mut echelon = Echelon::empty();
    let mut ranks = [0; POWERS];
    for (k, rank) in ranks.iter_mut().enumerate() {
        echelon.insert_power::<F>(row, k);
        *rank = echelon.rank();
    }
    (ranks, echelon.least().unwrap_or([0; LENGTH]))
}

// The least degree of a vector whose product with the row is the divisor: the first bound at which a combination gives it. By a `for`: in
// `find` the closure did not prove that k is below POWERS, which `insert_power` requires.
fn least_bezout<F: Field>(row: &Row, divisor: [u16; LENGTH]) -> Option<usize> {
    let mut echelon = Echelon::empty();
    for k in 0..POWERS {
        echelon.insert_power::<F>(row, k);
        if echelon.spans::<F>(divisor) {
            return Some(k);
        }
    }
    None
}

// How many check columns have at most each degree. Up to a power there are as many relations as lists less their rank, and each
// column gives one more for each power from its own on.
fn columns_within(n: usize, ranks: &[usize; POWERS]) -> [usize; POWERS] {
    let mut within = [0; POWERS];
    let (mut lists, mut before) = (0usize, 0);
    for (columns, rank) in within.iter_mut().zip(ranks) {
        lists = lists.saturating_add(n);
        let relations = lists.saturating_sub(*rank);
        *columns = relations.saturating_sub(before);
        before = relations;
    }
    within
}

// The least degrees of the columns, by that of the first and by how many check columns have at most each degree: that of check column j
// is the first that j of them do not exceed.
fn column_degrees(
    n: usize,
    first: Option<usize>,
    within: &[usize; POWERS],
) -> [Option<usize>; GENERATORS] {
    let mut degrees = [None; GENERATORS];
    for (j, degree) in degrees.iter_mut().enumerate().take(n) {
        *degree = if j == 0 {
            first
        } else {
            within.iter().position(|columns| j <= *columns)
        };
    }
    degrees
}

// The bounds of a row that is not all zero. What an empty list or a degree past the ranks lacks counts as zero. No contract: the trials show
// that these are the degrees of the columns of the other route.
pub fn bound<F: Field>(row: &Row) -> Bounds {
    let (ranks, divisor) = ranks::<F>(row);
    let divisor_degree = top_of(&divisor).unwrap_or(0);
    let degree = row.degree().unwrap_or(0).saturating_sub(divisor_degree);
    let first = least_bezout::<F>(row, divisor);
    Bounds {
        divisor,
        divisor_degree,
        degree,
        rank: ranks.get(degree).copied().unwrap_or(0),
        degrees: column_degrees(row.n, first, &columns_within(row.n, &ranks)),
    }
}
