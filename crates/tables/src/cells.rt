// Single places of a table. `get` and `put` do what an index does, but the calls are public, with edits of their own, and stay.
ghost use Rattle.std.specs.Prelude.{◌≡◌, ◌<◌, length};
ghost use Rattle.tables.specs.Places.{at, Kept};

use fields::field::Field;

// Reads a place, as a coefficient of the polynomial that lies there.
pub fn get<F: Field>(table: &[F], k: usize) -> F
    requires { k < length table.now }
    ensures { F.member result ≡ at F.ops F.member table.now k }
{
    table[k]
}

// Writes a place.
pub fn put<F: Field>(table: &mut [F], place: usize, value: F)
    requires { place < length table.old }
    ensures here { at F.ops F.member table.new place ≡ F.member value }
    ensures others { Kept F.ops F.member place 1 table.old table.new }
{
    table[place] = value;
}

// The inverse of what stands at a place, which is not zero.
pub fn inverse_at<F: Field>(table: &[F], place: usize) -> F
    requires room { place < length table.now }
    requires nonzero { at F.ops F.member table.now place ≡ F.ops.zero → ⊥ }
    ensures { F.ops.product (at F.ops F.member table.now place) (F.member result) ≡ F.ops.one }
{
    get(table, place).inverse().unwrap()
}
