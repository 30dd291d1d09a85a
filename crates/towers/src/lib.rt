// The fields that are built as pairs, and products by codes in any field.
#![tactic(auto)]

ghost use Rattle.std.specs.Prelude.{◌≡◌, ◌≤◌, ◌⊎◌, MatchResult};
ghost use Rattle.towers.specs.Worked.{IsProduct, AllHold, worked, stated};

use fields::fault::FieldFault;
use fields::field::Field;
use nibbles::Nibble;
use pairs::Pair;
use tones::Tone;

// Pairs over nibbles: 256 members, kind 4.
pub type Byte = Pair<Nibble>;

// Pairs over tones: 961 members, kind 3.
pub type TonePair = Pair<Tone>;

// The code of the product of the members of two codes; refused where one of them is the size or more.
pub fn product_of_codes<F: Field>(left: u32, right: u32) -> Result<u16, FieldFault>
    ensures { MatchResult result (λ p. IsProduct F.Field.ops F.Field.number left right p) (λ _. (F.Field.order ≤ left) ⊎ (F.Field.order ≤ right)) }
{
    let x = F::element(left)?;
    let y = F::element(right)?;
    Ok(x.multiply(y).code())
}

// The products of the worked examples, in their order, as the fields' own calls give them.
pub fn worked_products() -> [u16; 7]
    ensures value { result ≡ stated worked }
    ensures theorem { AllHold worked }
{
    [
        product_of_codes::<Tone>(5, 25).unwrap(),
        product_of_codes::<Nibble>(8, 2).unwrap(),
        product_of_codes::<Nibble>(2, 9).unwrap(),
        product_of_codes::<Byte>(16, 16).unwrap(),
        product_of_codes::<Byte>(16, 255).unwrap(),
        product_of_codes::<TonePair>(31, 31).unwrap(),
        product_of_codes::<TonePair>(32, 481).unwrap(),
    ]
}
