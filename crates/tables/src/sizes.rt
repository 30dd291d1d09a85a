// How long the lent tables are, and the rows in them. Tables are lent as slices, and their lengths are clauses: the public calls take
// slices of any length, and ask for it.

// How many generators a design has at most, and columns a frame. Below drafts, whose type keeps the limits of their number, it is a plain
// number with its limits in clauses: with a type of its own each clause on n would say `.value`, and only the limits in eight contracts
// would go.
pub const MAX_COUNT: usize = 8;

// How many coefficients a polynomial has: powers 0 to 16.
pub const WIDTH: usize = 17;

// The highest power of a polynomial.
pub const HIGHEST: usize = WIDTH - 1;

// How many coefficients the product of two polynomials has.
pub const PRODUCT: usize = 2 * WIDTH - 1;

// The table of generators: eight polynomials. A column of a frame is as long.
pub const GENERATORS: usize = MAX_COUNT * WIDTH;

// The columns of a frame, in a table of their own where they are offered: eight columns of eight polynomials.
pub const COLUMNS: usize = MAX_COUNT * GENERATORS;

// The frame table: the columns, and behind them the divisor.
pub const FRAME: usize = COLUMNS + WIDTH;

// The work table: so many rows as the generators have coefficients, and one more, each as long as a product. `frames::row` says where the
// divisor and the divided row lie in it.
pub const WORK: usize = PRODUCT * (GENERATORS + 1);
