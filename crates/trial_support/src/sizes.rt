// The sizes of rows, frames and cards, and where their parts stand in a table. The second route shares nothing with the library, so
// its sizes are its own.

// The most generators of a row.
pub const GENERATORS: usize = 8;

// The coefficients of a polynomial: of s^0 to s^16.
pub const POWERS: usize = 17;

// The coefficients of a product of two polynomials: of s^0 to s^32.
pub const LENGTH: usize = 2 * POWERS - 1;

// The elements of a table of generators, and of one column of a frame: the polynomials one after the other.
pub const ROW: usize = GENERATORS * POWERS;

// The elements of the columns of a frame, which stand one after the other.
pub const COLUMNS: usize = GENERATORS * ROW;

// The elements of a frame table: its columns, then the divisor.
pub const FRAME: usize = COLUMNS + POWERS;

// The elements of a work table: a product for each element of a table of generators, and one more.
pub const WORK: usize = LENGTH * (ROW + 1);

// The bytes of a card that stand before the heads: the kind, n, and how many records there are.
pub const HEADER: usize = 3;

// The bytes of a record: the power, two for the code, and the link to the next.
pub const RECORD: usize = 4;

// The longest card: a head for each generator, and a record for each coefficient.
pub const CARD: usize = HEADER + GENERATORS + RECORD * ROW;
