// Blocks and products by their definition: sums of products of coefficients.
ghost use Rattle.std.specs.Prelude.{◌≡◌, ◌≤◌, ◌<◌, ◌*◌, ◌↔◌, [], length, replicate, take, drop, slice_get, IsTrue, IfSome};
ghost use Rattle.std.specs.Option.{option_map_or};
ghost use Rattle.trial_support.specs.Blocks.{differing, SameOutside};

use crate::codes::{add_product, member_of, sum_product, top_of};
use crate::rows::Row;
use crate::sizes::{LENGTH, POWERS, ROW};
use fields::field::Field;

// The code of the symbol at a place, 0 past the end: there a message goes on with zeros. The tests' function of the same name reads
// tables, which have no places past their end.
pub fn code_at<F: Field>(symbols: &[F], place: usize) -> u16
    ensures { result ≡ option_map_or (λ x. F.number (F.member x)) (slice_get symbols.now place) 0 }
{
    symbols.get(place).map_or(0, |x| x.code())
}

// The symbol at a place of the block of a message: that of stream i at time t, zero in a stream past the eighth. Absent where the row has
// no streams.
fn symbol<F: Field>(row: &Row, message: &[F], place: usize) -> Option<u16> {
    let time = place.checked_div(row.n)?;
    let mut sum = 0;
    if let Some(polynomial) = row.polynomials.get(place.checked_rem(row.n)?) {
        for (before, code) in (0..=time).rev().zip(polynomial) {
            sum = sum_product(sum, member_of::<F>(*code), code_at(message, before));
        }
    }
    Some(sum)
}

// Whether a block is the block of a message; where the row has no streams, any is. The clause says little: what it would say is the sum of
// products of coefficients, and that is this program.
pub fn is_block<F: Field>(row: &Row, message: &[F], block: &[F]) -> bool
    ensures { block.now ≡ [] → IsTrue result }
{
    let mut symbols = block.iter().enumerate();
    symbols.all(|(place, x)| symbol(row, message, place).is_none_or(|y| x.code() == y))
}

// The part with that number of a table cut into parts of one size; empty where there is no such part.
fn part<F: Field>(table: &[F], size: usize, i: usize) -> &[F]
    requires { 0 < size }
    ensures { result.now ≡ take size (drop (size * i) table.now) }
{
    table.chunks(size).nth(i).unwrap_or(&[])
}

// Column j of a frame table, its components one after the other; empty where there is no such column.
pub fn column<F: Field>(frame: &[F], j: usize) -> &[F]
    ensures { result.now ≡ take ROW (drop (ROW * j) frame.now) }
{
    part(frame, ROW, j)
}

// Component i of a column; empty where there is no such component.
pub fn component<F: Field>(column: &[F], i: usize) -> &[F]
    ensures { result.now ≡ take POWERS (drop (POWERS * i) column.now) }
{
    part(column, POWERS, i)
}

// The codes of a component.
fn codes_of<F: Field>(component: &[F]) -> [u16; POWERS] {
    let mut codes = [0; POWERS];
    for (code, x) in codes.iter_mut().zip(component) {
        *code = x.code();
    }
    codes
}

// The highest power with a coefficient that is not zero in the first n components of a column, absent if there is none.
pub fn degree_of<F: Field>(n: usize, column: &[F]) -> Option<usize>
    ensures { IfSome result (λ k. k < POWERS) }
{
    column
        .chunks(POWERS)
        .take(n)
        .filter_map(|component| top_of(&codes_of(component)))
        .max()
}

// The product of a row and a column. The clause says little, as that of `is_block`.
pub fn product_with<F: Field>(row: &Row, column: &[F]) -> [u16; LENGTH]
    ensures { column.now ≡ [] → result ≡ replicate LENGTH 0 }
{
    let mut product = [0; LENGTH];
    for (polynomial, component) in row.polynomials().iter().zip(column.chunks(POWERS)) {
        add_product::<F>(&mut product, &codes_of(component), polynomial);
    }
    product
}

// In how many symbols two messages of one length differ.
pub fn differences<F: Field>(left: &[F], right: &[F]) -> usize
    ensures left { result ≤ length left.now }
    ensures right { result ≤ length right.now }
    ensures count { result ≡ differing (λ x. F.number (F.member x)) left.now right.now }
{
    left.iter()
        .zip(right)
        .filter(|(x, y)| x.code() != y.code())
        .count()
}

// Whether two messages of one length are the same but from one time to another.
pub fn same_outside<F: Field>(left: &[F], right: &[F], from: usize, to: usize) -> bool
    ensures same { left.now ≡ right.now → IsTrue result }
    ensures outside { IsTrue result ↔ SameOutside (λ x. F.number (F.member x)) from to left.now right.now }
{
    left.iter().zip(right).enumerate().all(|(time, (x, y))| (from <= time && time <= to)
        || x.code() == y.code())
}
