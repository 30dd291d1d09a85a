// The members of each field by their codes: which there are, which are zero and one, and what each is less itself.
use fields::field::Field;
use nibbles::Nibble;
use std::process::Abort;
use std::test::Fail;
use tones::Tone;
use towers::{Byte, TonePair, worked_products};

// A field of so many members, whose cards have that kind.
fn members<F: Field>(rt: &impl Abort, size: u32, kind: u8) -> Result<(), Fail> {
    assert_eq!(rt; F::size(), size);
    assert_eq!(rt; F::kind(), kind);
    assert!(rt; F::element(size).is_err());
    for code in 0..size {
        let x = F::element(code)?;
        assert_eq!(rt; u32::from(x.code()), code);
        assert_eq!(rt; x.same(F::zero()), code == 0);
        assert_eq!(rt; x.same(F::one()), code == 1);
        assert_eq!(rt; x.add(x.negate()).code(), 0);
    }
    Ok(())
}

#[test]
fn members_by_their_codes(rt: HostRuntime) -> Result<(), Fail> {
    members::<Tone>(&rt, 31, 1)?;
    members::<Nibble>(&rt, 16, 2)?;
    members::<TonePair>(&rt, 961, 3)?;
    members::<Byte>(&rt, 256, 4)
}

// 5·25 = 125 = 4·31 + 1; 8·2 = x^4 = x + 1 and 2·9 = x^4 + x = 1; z·z = z + x^3 and z·(15 + 15z) = 15·8 = 1; i·i = −1 and (1 + i)·(16 + 15i) = 1 + 31i.
#[test]
fn products_worked_by_hand(rt: HostRuntime) {
    assert_eq!(rt; worked_products(), [1, 3, 1, 24, 1, 30, 1]);
}
