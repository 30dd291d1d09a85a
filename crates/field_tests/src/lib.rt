// Tests of the fields: sums and products against arithmetic written another way, and inverses against one.
#![tactic(auto)]

#[cfg(test)]
mod bits;
#[cfg(test)]
mod members;
#[cfg(test)]
mod tests;
