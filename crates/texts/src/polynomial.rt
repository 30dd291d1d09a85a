// Polynomials as text, their coefficients by code.
use fields::field::Field;
use std::fmt;
use tables::sizes::WIDTH;

// One coefficient and its power of s.
#[derive(Drop)]
struct TermText {
    code: u16,
    power: usize,
}

impl fmt::Display for TermText {
    fn fmt<W: fmt::Write>(&self, f: &mut fmt::Formatter<W>) -> fmt::Result {
        let TermText { code, power } = *self;
        match (code, power) {
            (_, 0) => write!(f, "{code}"),
            (1, 1) => write!(f, "s"),
            (1, _) => write!(f, "s^{power}"),
            (_, 1) => write!(f, "{code}s"),
            _ => write!(f, "{code}s^{power}"),
        }
    }
}

// A polynomial, its coefficients from power 0 up.
#[derive(Drop)]
pub struct PolynomialText<'a, F: Field> {
    pub coefficients: &'a [F],
}

impl<F: Field> fmt::Display for PolynomialText<'_, F> {
    fn fmt<W: fmt::Write>(&self, f: &mut fmt::Formatter<W>) -> fmt::Result {
        if self.coefficients.iter().all(|x| x.code() == 0) {
            return write!(f, "0");
        }
        let terms = self
            .coefficients
            .iter()
            .enumerate()
            .map(|(power, x)| TermText {
                code: x.code(),
                power,
            })
            .filter(|term| term.code != 0);
        f.write_joined(terms, " + ")
    }
}

// A row of polynomials, one behind the other: generators, or the components of a column.
#[derive(Drop)]
pub struct RowText<'a, F: Field> {
    pub row: &'a [F],
}

impl<F: Field> fmt::Display for RowText<'_, F> {
    fn fmt<W: fmt::Write>(&self, f: &mut fmt::Formatter<W>) -> fmt::Result {
        let polynomials = self
            .row
            .chunks(WIDTH)
            .map(|coefficients| PolynomialText { coefficients });
        write!(f, "(")?;
        f.write_joined(polynomials, ", ")?;
        write!(f, ")")
    }
}
