// Lent tables of elements, read by the members that they mean.
#![tactic(auto)]

ghost use Rattle.tables.specs.Places.{Cleared};

use fields::field::Field;

pub mod cells;
pub mod rows;
pub mod sizes;

// Sets every place to zero.
pub fn clear<F: Field>(table: &mut [F])
    ensures { Cleared F.ops F.member table.new }
{
    // `fill` asks that a clone is the element, which is no law of a field.
    for x in table.iter_mut() {
        *x = F::zero();
    }
}
