// Cards: designs kept as bytes.
#![tactic(auto)]

mod bytes;
mod chains;
pub mod fault;
pub mod read;
pub mod sizes;
pub mod write;
