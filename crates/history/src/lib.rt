// Runs: any list of calls on one design, performed in order.
#![tactic(auto)]

pub mod perform;
pub mod request;
mod steps;
