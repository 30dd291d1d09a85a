// Tests of the greatest common divisor of a row: rows with known factors, compared with trial division by every small monic polynomial.
#![tactic(auto)]

#[cfg(test)]
mod parts;
#[cfg(test)]
mod plain;
#[cfg(test)]
mod rows;
#[cfg(test)]
mod tests;
