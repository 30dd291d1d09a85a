// Scripts: which call a line of text means.
#![tactic(auto)]

mod arguments;
pub mod call;
pub mod line;
pub mod number;
mod offer;
pub mod words;
