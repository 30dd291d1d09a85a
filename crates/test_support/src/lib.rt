// What the tests of the calls share: designs by their terms, the tables that they lend, and what is read of tables.
#![tactic(auto)]

pub mod designs;
pub mod elements;
