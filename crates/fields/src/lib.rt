// Finite fields: the interface that every algorithm is written against, fields with a quadratic, and the refusals.
#![tactic(auto)]

pub mod fault;
pub mod field;
pub mod quadratic;
