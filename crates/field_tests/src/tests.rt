use crate::bits::{byte_product, nibble_product, tone_pair_product};
use fields::field::Field;
use nibbles::Nibble;
use std::process::Abort;
use std::test::Fail;
use tones::Tone;
use towers::{Byte, TonePair, product_of_codes};

// The product of each two of so many members has the code that arithmetic written another way gives.
fn products<F: Field, C: Fn(u32, u32) -> u64>(
    rt: &impl Abort,
    size: u32,
    expected: C,
) -> Result<(), Fail>
    requires { C.IsAlwaysCallable expected }
{
    for a in 0..size {
        for b in 0..size {
            assert_eq!(rt; u64::from(product_of_codes::<F>(a, b)?), expected(a, b));
        }
    }
    Ok(())
}

#[test]
fn nibble_products(rt: HostRuntime) -> Result<(), Fail> {
    products::<Nibble, _>(&rt, 16, nibble_product)
}

#[test]
fn byte_products(rt: HostRuntime) -> Result<(), Fail> {
    products::<Byte, _>(&rt, 256, byte_product)
}

#[test]
fn tone_pair_products(rt: HostRuntime) -> Result<(), Fail> {
    products::<TonePair, _>(&rt, 961, tone_pair_product)
}

// A sum of bytes is the xor of their codes.
#[test]
fn byte_sums(rt: HostRuntime) -> Result<(), Fail> {
    for a in 0..256u32 {
        for b in 0..256u32 {
            let sum = Byte::element(a)?.add(Byte::element(b)?);
            assert_eq!(rt; u32::from(sum.code()), a ^ b);
        }
    }
    Ok(())
}

// Each member but zero times its inverse is one, whose code is 1 in every field.
fn inverses<F: Field>(rt: &impl Abort) -> Result<(), Fail> {
    for code in 0..F::size() {
        let x = F::element(code)?;
        match x.inverse() {
            Some(y) => assert_eq!(rt; x.multiply(y).code(), 1),
            None => assert_eq!(rt; code, 0),
        }
    }
    Ok(())
}

#[test]
fn tone_inverses(rt: HostRuntime) -> Result<(), Fail> {
    inverses::<Tone>(&rt)
}

#[test]
fn nibble_inverses(rt: HostRuntime) -> Result<(), Fail> {
    inverses::<Nibble>(&rt)
}

#[test]
fn byte_inverses(rt: HostRuntime) -> Result<(), Fail> {
    inverses::<Byte>(&rt)
}

#[test]
fn tone_pair_inverses(rt: HostRuntime) -> Result<(), Fail> {
    inverses::<TonePair>(&rt)
}
