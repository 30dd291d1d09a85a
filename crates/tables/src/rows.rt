// Rows: the coefficients of polynomials, or the rows of a matrix, in slices and in parts of tables.
ghost use Rattle.std.specs.Prelude.{◌≡◌, ◌+◌, ◌≤◌, length};
ghost use Rattle.algebra.specs.Series.{series, shift, scale as scaled};
ghost use Rattle.tables.specs.Places.{at, Apart, Kept, poly_at};

use crate::clear;
use fields::field::Field;

// `clear_part`, `copy_from` and `copy` name a part by numbers, and `swap` forwards. A slice's own methods do the same, but these calls are
// public, with edits of their own, and stay.

// Sets a part to zero.
pub fn clear_part<F: Field>(table: &mut [F], base: usize, width: usize)
    requires { base + width ≤ length table.old }
    ensures zero { poly_at F.ops F.member table.new base width ≡ (series F.ops).zero }
    ensures others { Kept F.ops F.member base width table.old table.new }
{
    clear(&mut table[base..base + width]);
}

// Copies a part of one table into another.
pub fn copy_from<F: Field>(source: &[F], from: usize, table: &mut [F], base: usize, width: usize)
    requires room { (from + width ≤ length source.now) × (base + width ≤ length table.old) }
    ensures copy { poly_at F.ops F.member table.new base width ≡ poly_at F.ops F.member source.now from width }
    ensures others { Kept F.ops F.member base width table.old table.new }
{
    table[base..base + width].copy_from_slice(&source[from..from + width]);
}

// Copies a part of a table to another part of it.
pub fn copy<F: Field>(table: &mut [F], from: usize, base: usize, width: usize)
    requires room { (from + width ≤ length table.old) × (base + width ≤ length table.old) }
    requires apart { Apart base width from width }
    ensures copy { poly_at F.ops F.member table.new base width ≡ poly_at F.ops F.member table.old from width }
    ensures others { Kept F.ops F.member base width table.old table.new }
{
    table.copy_within(from..from + width, base);
}

// Multiplies a row by an element.
pub fn scale<F: Field>(row: &mut [F], factor: F)
    ensures { at F.ops F.member row.new ≡ scaled F.ops (F.member factor) (at F.ops F.member row.old) }
{
    for x in row.iter_mut() {
        *x = factor.multiply(*x);
    }
}

// Adds to a polynomial s^power times an element times another. With power 0 it adds rows.
pub fn add_multiple<F: Field>(target: &mut [F], power: usize, factor: F, source: &[F])
    requires { power + length source.now ≤ length target.old }
    ensures { at F.ops F.member target.new ≡ (series F.ops).sum (at F.ops F.member target.old) (shift F.ops power (scaled F.ops (F.member factor) (at F.ops F.member source.now))) }
{
    // A proof knows nothing of what was written through `iter_mut` in a `zip`.
    for (k, y) in source.iter().enumerate() {
        let x = &mut target[power + k];
        *x = x.add(y.multiply(factor));
    }
}

// Exchanges two rows of one length.
pub fn swap<F: Field>(left: &mut [F], right: &mut [F])
    requires { length left.old ≡ length right.old }
    ensures first { at F.ops F.member left.new ≡ at F.ops F.member right.old }
    ensures second { at F.ops F.member right.new ≡ at F.ops F.member left.old }
{
    left.swap_with_slice(right);
}
