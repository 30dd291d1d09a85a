// Support of the trials: a second solver, cards and blocks by another route, and what the trials draw. It knows the fields and nothing
// of the library above them.
#![tactic(auto)]

pub mod blocks;
pub mod bounds;
pub mod cards;
pub mod codes;
pub mod draws;
pub mod faults;
pub mod offers;
pub mod reduction;
pub mod rows;
pub mod sizes;
pub mod solver;
pub mod vectors;
