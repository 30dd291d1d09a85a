// Texts that the programs print: polynomials and symbols by their codes, bytes, verdicts and cards.
#![tactic(auto)]

pub mod card;
pub mod list;
pub mod polynomial;
pub mod verdict;
