// How long a card and its parts are, in bytes.
use tables::sizes::{GENERATORS, MAX_COUNT};

// Kind, n and m, which stand before the heads.
pub const HEADER: usize = 3;

// Power, code and next.
pub const RECORD: usize = 4;

// The longest card: eight heads, and a record for each coefficient.
pub const CARD: usize = HEADER + MAX_COUNT + RECORD * GENERATORS;
