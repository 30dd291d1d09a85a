// The heads and records of the generators, in a buffer.
// Here and in `write`, each cast to u8 is proved to lose nothing; `u8::try_from` would need an `unwrap` beside it.
// The number n stands beside the whole table: contracts name the caller's table, as in `frames::row`.
ghost use Rattle.std.specs.Prelude.{◌≡◌, ℕ, ◌+◌, ◌*◌, ◌<◌, ◌≤◌, List, map, length, unwrap_or};
ghost use Rattle.fields.specs.Elements.{code_of};
ghost use Rattle.cards.specs.Cards.{Term, terms, generators, records, heads, chains, term_count, link as links};
ghost use Rattle.cards.specs.Overwriting.{over};

use crate::bytes::{Record, write_record};
use crate::sizes::{CARD, HEADER, RECORD};
use fields::field::Field;
use tables::sizes::{GENERATORS, MAX_COUNT, WIDTH};

// How many coefficients are not zero.
fn count_terms<F: Field>(row: &[F]) -> usize
    ensures value { result ≡ length (terms 0 (map (code_of F.number F.member) row.now)) }
    ensures bound { result ≤ length row.now }
{
    // A loop: over tones it compiles to wide comparisons, and with `filter` and `count` an empty card needs nearly twice the instructions.
    let mut count = 0;
    for x in row {
        if x.code() != 0 {
            count += 1;
        }
    }
    count
}

// The number of the first of the terms that are left, if there is one.
fn link(number: usize, left: usize) -> Option<u8>
    requires { number < 256 }
    ensures { (ts : List Term) → left ≡ length ts → unwrap_or result 0 ≡ links number ts }
{
    (left > 0).then_some(number as u8)
}

// Writes the records of one generator from a place on, the first of them with the number `first`, and answers the number after the last.
fn write_chain<F: Field>(row: &[F], first: usize, buffer: &mut [u8], place: usize) -> usize
    requires numbers { (length row.now ≤ WIDTH) × (first ≤ GENERATORS + 1) }
    requires room { place + RECORD * length (terms 0 (map (code_of F.number F.member) row.now)) ≤ length buffer.old }
    ensures next { result ≡ first + length (terms 0 (map (code_of F.number F.member) row.now)) }
    ensures after { buffer.new ≡ over place (records first (terms 0 (map (code_of F.number F.member) row.now))) buffer.old }
{
    // Three counters: with one, from which the others are computed, the longest card needs half as many instructions again.
    let mut left = count_terms(row);
    let mut next = first;
    let mut at = place;
    for (power, x) in row.iter().enumerate() {
        let code = x.code();
        if code != 0 {
            left -= 1;
            next += 1;
            let record = Record {
                power: power as u8,
                code,
                next: link(next, left),
            };
            write_record(buffer, at, record);
            at += RECORD;
        }
    }
    next
}

// Writes the heads of the first n generators, 0 for one that is zero, and answers how many terms these have in all.
pub fn write_heads<F: Field>(n: usize, table: &[F], buffer: &mut [u8]) -> usize
    requires { (n ≤ MAX_COUNT) × ((length table.now ≡ GENERATORS) × (length buffer.old ≡ CARD)) }
    ensures count { result ≡ term_count (generators n (map (code_of F.number F.member) table.now)) }
    ensures bound { result ≤ WIDTH * n }
    ensures after { buffer.new ≡ over HEADER (heads 1 (generators n (map (code_of F.number F.member) table.now))) buffer.old }
{
    // The number runs on from row to row: in a chain a closure would change it, and of its answers a proof knows nothing then.
    let mut next = 1;
    for (i, row) in table[..WIDTH * n].chunks_exact(WIDTH).enumerate() {
        let count = count_terms(row);
        buffer[HEADER + i] = link(next, count).unwrap_or(0);
        next += count;
    }
    next - 1
}

// Writes the records of the first n generators, after their heads.
pub fn write_chains<F: Field>(n: usize, table: &[F], buffer: &mut [u8])
    requires { (n ≤ MAX_COUNT) × ((length table.now ≡ GENERATORS) × (length buffer.old ≡ CARD)) }
    ensures { buffer.new ≡ over (HEADER + n) (chains 1 (generators n (map (code_of F.number F.member) table.now))) buffer.old }
{
    let mut next = 1;
    for row in table[..WIDTH * n].chunks_exact(WIDTH) {
        next = write_chain(row, next, buffer, HEADER + n + RECORD * (next - 1));
    }
}
