// Designs: a row of generators entered into a lent table, and the refusals of these calls.
#![tactic(auto)]

pub mod draft;
pub mod fault;
pub mod framed;
