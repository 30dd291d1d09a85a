// The field interface: elements, and the members that they mean.
ghost use Rattle.std.specs.Prelude.{◌≡◌, ℕ, ◌<◌, ◌≤◌, MatchResult};
ghost use Rattle.std.specs.Option.{option_map};
ghost use Rattle.algebra.specs.Rings.{RingOps, FieldLaws, Invertible, Numbering};
ghost use Rattle.fields.specs.Elements.{Inverts, Same};

use crate::fault::FieldFault;

pub trait Field: Copy {
    ghost Member: { Type 0 };

    ghost ops: { RingOps Member };

    // The member that an element means.
    ghost member: { Self → Member };

    // How many members there are.
    ghost order: { ℕ };

    // The code of a member.
    ghost number: { Member → ℕ };

    // The number that stands for the field on cards.
    ghost tag: { ℕ };

    fn zero() -> Self
        ensures { member result ≡ ops.zero };

    fn one() -> Self
        ensures { member result ≡ ops.one };

    fn add(self, other: Self) -> Self
        ensures { member result ≡ ops.sum (member self) (member other) };

    fn negate(self) -> Self
        ensures { member result ≡ ops.negative (member self) };

    fn multiply(self, other: Self) -> Self
        ensures { member result ≡ ops.product (member self) (member other) };

    // Absent for zero only.
    fn inverse(self) -> Option<Self>
        ensures { Inverts ops (member self) (option_map member result) };

    // Whether both mean one member. Two elements may mean one, so no derived `==` says it.
    fn same(self, other: Self) -> bool
        ensures { Same (member self) (member other) result };

    // How many members there are.
    fn size() -> u32
        ensures value { result ≡ order }
        ensures limits { (2 ≤ order) × (order ≤ 65536) };

    fn code(self) -> u16
        ensures { result ≡ number (member self) };

    // The element of a code; refused where the number is the size or more.
    fn element(code: u32) -> Result<Self, FieldFault>
        ensures { MatchResult result (λ x. (code < order) × (number (member x) ≡ code)) (λ _. order ≤ code) };

    fn kind() -> u8
        ensures value { result ≡ tag }
        ensures limits { (1 ≤ tag) × (tag ≤ 255) };

    ghost laws: { FieldLaws ops };

    ghost invertible: { Invertible ops };

    ghost numbered: { Numbering ops order number };
}
