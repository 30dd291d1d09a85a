use crate::plain::{divides, multiply, top};
use crate::rows::{Row, polynomial, write};
use fields::field::Field;
use nibbles::Nibble;
use std::process::Abort;
use std::test::Fail;
use tables::sizes::{HIGHEST, MAX_COUNT, WIDTH};
use tones::Tone;
use towers::{Byte, TonePair};

// Fills the first n generators with multiples of a monic polynomial of degree e, the second being zero if there are three or more.
fn fill<F: Field>(n: usize, e: usize, seed: u32, generators: &mut [F]) {
    let mut factor = polynomial::<F>(e, seed);
    if let Some(leading) = factor.get_mut(e) {
        *leading = 1;
    }
    let mut next = seed;
    for (i, generator) in generators.chunks_mut(WIDTH).take(MAX_COUNT).enumerate() {
        let other = if i < n && (n == 2 || i != 1) {
            polynomial::<F>(HIGHEST.saturating_sub(e), next)
        } else {
            [0; WIDTH]
        };
        write(generator, multiply::<F>(factor, other));
        next = next.wrapping_add(77);
    }
}

// Every monic polynomial of degree 1.
fn linear_trials<F: Field>(rt: &impl Abort, row: &Row<F>) {
    for low in 0..F::size() {
        row.check_trial(rt, 1, low, 0);
    }
}

// Every monic polynomial of degree 2.
fn quadratic_trials<F: Field>(rt: &impl Abort, row: &Row<F>) {
    for low in 0..F::size() {
        for next in 0..F::size() {
            row.check_trial(rt, 2, low, next);
        }
    }
}

// From 2 to 8 generators, with factors of degree 0 to 16; then a row of zeros. Monic polynomials of degree 2 are tried on the first so
// many rows.
fn rows<F: Field + Clone>(rt: &(impl Abort + AllocGlobal), quadratics: usize) -> Result<(), Fail> {
    let mut row = Row::zeros(rt.alloc(), MAX_COUNT, F::one())?;
    for (e, seed) in (0..WIDTH).zip(1u32..) {
        row.n = 2 + e % 7;
        fill(row.n, e, seed, &mut row.generators);
        let degrees = row.divide().ok_or("every generator is zero")?;
        assert!(rt; divides::<F>(e, polynomial::<F>(e, seed), row.divisor()));
        row.check_division(rt, degrees);
        linear_trials(rt, &row);
        if e < quadratics {
            quadratic_trials(rt, &row);
        }
    }
    row.n = MAX_COUNT;
    tables::clear(&mut row.generators);
    assert!(rt; row.divide().is_none());
    assert_eq!(rt; top(row.divisor()), None);
    assert!(rt; row.rest_is_zero(0));
    Ok(())
}

#[test]
fn tone_rows(rt: HostRuntime) -> Result<(), Fail> {
    rows::<Tone>(&rt, 4)
}

#[test]
fn nibble_rows(rt: HostRuntime) -> Result<(), Fail> {
    rows::<Nibble>(&rt, 4)
}

#[test]
fn byte_rows(rt: HostRuntime) -> Result<(), Fail> {
    rows::<Byte>(&rt, 0)
}

#[test]
fn tone_pair_rows(rt: HostRuntime) -> Result<(), Fail> {
    rows::<TonePair>(&rt, 0)
}

// A row of no generators has no divisor, and the work table, which was full of ones, is cleared.
#[test]
fn no_generators(rt: HostRuntime) -> Result<(), Fail> {
    let mut row = Row::zeros(rt.alloc(), 0, Tone::T1)?;
    assert!(rt; row.divide().is_none());
    assert!(rt; row.rest_is_zero(0));
    Ok(())
}

// The row (s^2, s^2 + s) has the divisor s and the divided row (s, s + 1).
#[test]
fn square_and_square_with_line(rt: HostRuntime) -> Result<(), Fail> {
    let mut row = Row::zeros(rt.alloc(), 2, Tone::T0)?;
    row.generators[2] = Tone::T1;
    row.generators[WIDTH + 1] = Tone::T1;
    row.generators[WIDTH + 2] = Tone::T1;
    let degrees = row.divide().ok_or("every generator is zero")?;
    assert_eq!(rt; degrees.divisor, 1);
    assert_eq!(rt; degrees.row, 1);
    row.check_division(&rt, degrees);
    Ok(())
}
