// What the program walks through: the designs that it enters, and columns, divisors, cards and products as text.
#![tactic(auto)]

pub mod card;
pub mod columns;
pub mod designs;
pub mod products;
