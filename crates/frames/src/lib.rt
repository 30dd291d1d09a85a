// Frames of a row of polynomials: its greatest common divisor and the row divided by it.
#![tactic(auto)]

mod euclid;
pub mod row;
