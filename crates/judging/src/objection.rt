// What speaks against an offered frame.

// The first question that is answered no.
#[derive(Clone, Copy, PartialEq, Eq, Debug)]
pub enum Objection {
    // Every generator is zero.
    AllZero,
    // The generators times column 0 are not their divisor.
    First,
    // The generators times this check column, the lowest such, are not zero.
    Check(usize),
    // A check column is zero, the degrees fall or add up to another number, or the leading vectors are dependent.
    Degrees,
    // Column 0's leading vector is a combination of those of check columns of no higher degree.
    Leading,
}
