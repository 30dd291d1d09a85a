// What is printed of the answers.
use design::framed::Framed;
use fields::field::Field;
use history::request::Design;
use std::fmt;
use tables::sizes::{COLUMNS, GENERATORS, WIDTH};
use texts::list::BytesText;

// A polynomial: its codes from power 0 up, with commas.
#[derive(Drop)]
pub struct CodesText<'a, F: Field>(pub &'a [F]);

impl<F: Field> fmt::Display for CodesText<'_, F> {
    fn fmt<W: fmt::Write>(&self, f: &mut fmt::Formatter<W>) -> fmt::Result {
        let Some(last) = self.0.iter().rposition(|x| x.code() != 0) else {
            return write!(f, "0");
        };
        f.write_joined(self.0[..=last].iter().map(|x| x.code()), ",")
    }
}

// Where a design stands, by its numbers.
#[derive(Drop)]
pub struct StandingText<'a>(pub &'a Design);

impl fmt::Display for StandingText<'_> {
    fn fmt<W: fmt::Write>(&self, f: &mut fmt::Formatter<W>) -> fmt::Result {
        // Bound first: in a match on `self.0` itself the borrow checker covers no pattern at `Framed`, which has a ghost field.
        let design = self.0;
        match design {
            Design::Draft(draft) => write!(f, "draft {}", draft.count()),
            Design::Framed(framed) => {
                let n = framed.generators();
                let degree = framed.degree();
                let divisor = framed.divisor_degree();
                let columns = framed.columns().to_le_bytes();
                let degrees = BytesText {
                    bytes: &columns[..n],
                };
                write!(
                    f,
                    "framed {n} degree {degree} divisor-degree {divisor} degrees {degrees}"
                )
            }
        }
    }
}

// A generator and its number.
#[derive(Drop)]
struct GeneratorText<'a, F: Field> {
    i: usize,
    coefficients: &'a [F],
}

impl<F: Field> fmt::Display for GeneratorText<'_, F> {
    fn fmt<W: fmt::Write>(&self, f: &mut fmt::Formatter<W>) -> fmt::Result {
        let i = self.i;
        let codes = CodesText(self.coefficients);
        write!(f, "generator {i}: {codes}")
    }
}

// The generators, each on a line.
#[derive(Drop)]
pub struct GeneratorsText<'a, F: Field>(pub &'a [F]);

impl<F: Field> fmt::Display for GeneratorsText<'_, F> {
    fn fmt<W: fmt::Write>(&self, f: &mut fmt::Formatter<W>) -> fmt::Result {
        let generators = self
            .0
            .chunks(WIDTH)
            .enumerate()
            .map(|(i, coefficients)| GeneratorText { i, coefficients });
        f.write_joined(generators, "\n")
    }
}

// A column by its components.
#[derive(Drop)]
struct ColumnText<'a, F: Field>(&'a [F]);

impl<F: Field> fmt::Display for ColumnText<'_, F> {
    fn fmt<W: fmt::Write>(&self, f: &mut fmt::Formatter<W>) -> fmt::Result {
        f.write_joined(self.0.chunks(WIDTH).map(|x| CodesText(x)), " ")
    }
}

// A frame: the divisor, and the columns, each on a line.
#[derive(Drop)]
pub struct FrameText<'a, F: Field> {
    pub framed: &'a Framed,
    pub frame: &'a [F],
}

impl<F: Field> fmt::Display for FrameText<'_, F> {
    fn fmt<W: fmt::Write>(&self, f: &mut fmt::Formatter<W>) -> fmt::Result {
        let n = self.framed.generators();
        let divisor = CodesText(self.frame.get(COLUMNS..).unwrap_or(&[]));
        write!(f, "divisor: {divisor}")?;
        for (j, column) in (0..n).zip(self.frame.chunks_exact(GENERATORS)) {
            let components = ColumnText(&column[..WIDTH * n]);
            write!(f, "\ncolumn {j}: {components}")?;
        }
        Ok(())
    }
}
