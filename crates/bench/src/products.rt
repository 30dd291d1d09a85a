// A million products in each field.
use crate::measure::Bench;
use fields::fault::FieldFault;
use fields::field::Field;
use nibbles::Nibble;
use std::io;
use tones::Tone;
use towers::{Byte, TonePair};

const PRODUCTS: u32 = 1_000_000;

// Each product is of the two before it; the first two have these codes.
fn chain<F: Field>(first: u32, second: u32) -> Result<u16, FieldFault> {
    let mut older = F::element(first)?;
    let mut newer = F::element(second)?;
    for _ in 0..PRODUCTS {
        (older, newer) = (newer, older.multiply(newer));
    }
    Ok(newer.code())
}

// Measures a chain, and prints the last code.
fn run<F: Field>(bench: &Bench<'_>, name: &str, first: u32, second: u32) -> io::Result<()> {
    bench.measure(name, || chain::<F>(first, second).ok())
}

// A chain in each field.
pub(crate) fn run_products(bench: &Bench<'_>) -> io::Result<()> {
    run::<Tone>(bench, "tones", 3, 11)?;
    run::<Nibble>(bench, "nibbles", 2, 9)?;
    run::<Byte>(bench, "bytes", 16, 77)?;
    run::<TonePair>(bench, "tone pairs", 40, 500)
}
