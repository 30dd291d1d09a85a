// An offer: columns for generators, each in its table.
ghost use Rattle.std.specs.List.{between};
ghost use Rattle.std.specs.Prelude.{◌≡◌, ◌+◌, ◌*◌, ◌<◌, ◌≤◌, length};
ghost use Rattle.tables.specs.declared.sizes.TheConstants.{GENERATORS, COLUMNS, MAX_COUNT};

use fields::field::Field;
use tables::sizes::{GENERATORS, MAX_COUNT};

// The first n columns of an offered table, for the first n generators.
// n stands beside the whole tables: a table of n columns would still hold eight components of each, and n would be a length divided.
#[derive(Drop)]
pub(crate) struct Offer<'a, F: Field> {
    pub(crate) n: usize,
    pub(crate) generators: &'a [F],
    pub(crate) offered: &'a [F],
    ghost low: { 2 ≤ n },
    ghost high: { n ≤ MAX_COUNT },
    ghost rows: { length generators.now ≡ GENERATORS },
    ghost columns: { length offered.now ≡ COLUMNS },
}

impl<'a, F: Field> Offer<'a, F> {
    // The places of column j.
    pub(crate) fn column(&self, j: usize) -> &[F]
        requires { j < MAX_COUNT }
        ensures value { result.now ≡ between (GENERATORS * j) (GENERATORS * j + GENERATORS) self.now.offered.now }
        ensures len { length result.now ≡ GENERATORS }
    {
        let start = GENERATORS * j;
        &self.offered[start..start + GENERATORS]
    }
}
