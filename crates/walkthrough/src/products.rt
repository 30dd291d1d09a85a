// A product in each field.
use fields::field::Field;
use nibbles::Nibble;
use std::fmt;
use tones::Tone;
use towers::{Byte, TonePair, product_of_codes};

// Writes the product of two members, by their codes.
fn write_product<F: Field, W: fmt::Write>(
    f: &mut fmt::Formatter<W>,
    field: &str,
    left: u32,
    right: u32,
) -> fmt::Result {
    match product_of_codes::<F>(left, right) {
        Ok(product) => writeln!(f, "  {field}: {left} times {right} is {product}"),
        Err(_) => writeln!(f, "  {field}: no such members"),
    }
}

// A product in each field: the same interface has four implementations.
#[derive(Clone, Copy)]
pub struct ProductsText;

impl fmt::Display for ProductsText {
    fn fmt<W: fmt::Write>(&self, f: &mut fmt::Formatter<W>) -> fmt::Result {
        writeln!(f, "A product in each field, by codes:")?;
        write_product::<Tone, W>(f, "tones", 5, 25)?;
        write_product::<Nibble, W>(f, "nibbles", 8, 2)?;
        write_product::<Byte, W>(f, "bytes", 16, 16)?;
        write_product::<TonePair, W>(f, "tone pairs", 31, 31)
    }
}
