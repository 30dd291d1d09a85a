// Lists as text, with a blank between two items.
use fields::field::Field;
use std::fmt;

// Bytes.
#[derive(Drop)]
pub struct BytesText<'a> {
    pub bytes: &'a [u8],
}

impl fmt::Display for BytesText<'_> {
    fn fmt<W: fmt::Write>(&self, f: &mut fmt::Formatter<W>) -> fmt::Result {
        f.write_joined(self.bytes.iter(), " ")
    }
}

// Symbols by their codes.
#[derive(Drop)]
pub struct SymbolsText<'a, F: Field> {
    pub symbols: &'a [F],
}

impl<F: Field> fmt::Display for SymbolsText<'_, F> {
    fn fmt<W: fmt::Write>(&self, f: &mut fmt::Formatter<W>) -> fmt::Result {
        f.write_joined(self.symbols.iter().map(|x| x.code()), " ")
    }
}
