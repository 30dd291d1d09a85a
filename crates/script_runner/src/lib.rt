// Runs a script: the calls of its lines, one after the other, on one design.
#![tactic(auto)]

mod calls;
pub mod command;
mod desk;
mod elements;
pub mod input;
mod offered;
pub mod run;
mod stopped;
mod text;
