// Fields with a quadratic that has no root: what pairs are built over.
ghost use Rattle.std.specs.Prelude.{◌≡◌, ◌≤◌};
ghost use Rattle.fields.specs.Quadratics.{Rootless};

use crate::field::Field;

// The quadratic is z·z + t·z + c.
pub trait Quadratic: Field {
    // An element that means t.
    ghost linear: { Self };

    // An element that means c.
    ghost constant: { Self };

    fn t() -> Self
        ensures { Self.Field.member result ≡ Self.Field.member linear };

    fn c() -> Self
        ensures { Self.Field.member result ≡ Self.Field.member constant };

    ghost rootless: { Rootless Self.Field.ops (Self.Field.member linear) (Self.Field.member constant) };

    // The codes and the kind of pairs fit their types.
    ghost limits: { (Self.Field.order ≤ 256) × (Self.Field.tag ≤ 253) };
}
