// The columns of a frame.
ghost use Rattle.std.specs.Prelude.{◌≡◌, ◌+◌, ◌%◌};

use design::framed::Framed;
use fields::field::Field;
use std::fmt;
use tables::sizes::{GENERATORS, WIDTH};
use texts::polynomial::RowText;

// The columns of a frame, each with its degree on a line.
#[derive(Drop)]
pub struct ColumnsText<'a, F: Field> {
    pub framed: &'a Framed,
    pub frame: &'a [F],
}

impl<F: Field> fmt::Display for ColumnsText<'_, F> {
    fn fmt<W: fmt::Write>(&self, f: &mut fmt::Formatter<W>) -> fmt::Result {
        let n = self.framed.generators();
        let degrees = self.framed.columns().to_le_bytes();
        let columns = self.frame.chunks_exact(GENERATORS).zip(degrees.iter());
        for (j, (column, degree)) in (0..n).zip(columns) {
            let row = RowText {
                row: &column[..WIDTH * n],
            };
            writeln!(f, "  column {j}, of degree {degree}: {row}")?;
        }
        Ok(())
    }
}

// How many symbols one hit can spoil: the degree of column 0, and one more.
pub fn spoiled(framed: &Framed) -> u16
    ensures { result ≡ framed.now.columns % 256 + 1 }
{
    let [first, ..] = framed.columns().to_le_bytes();
    u16::from(first) + 1
}
