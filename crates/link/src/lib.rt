// The link: a message goes out as a block of streams, is told clean or not, and comes home.
#![tactic(auto)]

pub mod calls;
pub mod fault;
mod products;
