// The greatest common divisor of a row of 8 generators of degree 16.
ghost use Rattle.std.specs.Prelude.{◌≡◌, length};

use crate::measure::Bench;
use fields::field::Field;
use frames::row::{Degrees, divide_by_gcd};
use random::Random;
use std::{fmt, io};
use tables::sizes::{GENERATORS, MAX_COUNT, WORK};
use tones::Tone;
use towers::Byte;

const RUNS: u32 = 1000;

// The degrees, in words.
#[derive(Drop)]
struct DegreesText(Degrees);

impl fmt::Display for DegreesText {
    fn fmt<W: fmt::Write>(&self, f: &mut fmt::Formatter<W>) -> fmt::Result {
        let Degrees { divisor, row } = self.0;
        write!(
            f,
            "divisor of degree {divisor}, divided row of degree {row}"
        )
    }
}

// Divides the row by its divisor, again and again.
fn divide<F: Field>(generators: &[F], work: &mut [F]) -> Option<DegreesText>
    requires { (length generators.now ≡ GENERATORS) × (length work.old ≡ WORK) }
{
    let mut degrees = None;
    for _ in 0..RUNS {
        degrees = divide_by_gcd(MAX_COUNT, generators, work);
    }
    degrees.map(DegreesText)
}

// Measures a row whose codes look random.
fn run<F: Field>(
    bench: &Bench<'_>,
    name: &str,
    generators: &mut [F],
    work: &mut [F],
) -> io::Result<()>
    requires { (length generators.old ≡ GENERATORS) × (length work.old ≡ WORK) }
{
    Random::seeded(1).fill(generators);
    bench.measure(name, || divide(generators, work))
}

// A row of tones, and one of bytes.
pub(crate) fn run_rows(bench: &Bench<'_>) -> io::Result<()> {
    let mut generators = [Tone::zero(); GENERATORS];
    let mut work = [Tone::zero(); WORK];
    run(bench, "rows of tones", &mut generators, &mut work)?;
    let mut generators = [Byte::zero(); GENERATORS];
    let mut work = [Byte::zero(); WORK];
    run(bench, "rows of bytes", &mut generators, &mut work)
}
