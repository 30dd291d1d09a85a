// Cards written, read back, and damaged.
use crate::station::{holds, mark};
use crate::tally::Tally;
use cards::read::read_card;
use cards::write::write_card;
use design::draft::Draft;
use fields::field::Field;
use std::alloc::AllocError;
use trial_support::cards::meaning_of;
use trial_support::draws::Draws;
use trial_support::faults::Fault;
use trial_support::rows::Row;
use trial_support::sizes::{CARD, ROW};

// The longest card of which each byte is damaged to every value.
const SHORT: usize = 40;

// Whether a table holds a row's polynomials, and zero from n on.
fn holds_row<F: Field>(table: &[F], row: &Row) -> bool {
    holds(table, row.polynomials.as_flattened())
}

// Whether the card that is written for a draft is a row's, byte for byte, with zeros after it.
pub fn writing_agrees<F: Field>(draft: &Draft, generators: &[F], card: &[u8]) -> bool {
    let mut buffer = [7u8; CARD];
    write_card(draft, generators, &mut buffer).is_ok_and(|length| length == card.len())
        && buffer.get(..card.len()) == Some(card)
        && buffer.iter().skip(card.len()).all(|byte| *byte == 0)
}

// Whether a draft that was read, written and read again is the same.
fn rewriting_agrees<F: Field>(draft: &Draft, table: &mut [F], row: &Row) -> bool {
    // The whole buffer, as the call asks.
    let mut buffer = [7u8; CARD];
    let Ok(length) = write_card(draft, table, &mut buffer) else {
        return false;
    };
    mark(table);
    read_card(&buffer[..length], table).is_ok_and(|again| again.count() == row.n)
        && holds_row(table, row)
}

// Whether reading gives the design of a row, which is written and read again. A struct of the bytes and the table would be made anew for
// each reading, since the card changes between two.
fn design_agrees<F: Field>(bytes: &[u8], table: &mut [F], row: &Row) -> bool {
    read_card(bytes, table).is_ok_and(|draft| {
        draft.count() == row.n && holds_row(table, row) && rewriting_agrees(&draft, table, row)
    })
}

// Whether reading is refused by a fault, and leaves the marked table as it was.
fn fault_agrees<F: Field>(bytes: &[u8], table: &mut [F], fault: Fault) -> bool {
    read_card(bytes, table).is_err_and(|refusal| Fault::of(&refusal) == fault)
        && holds(table, &[1; ROW])
}

// Whether reading gives what the bytes mean: the design, or the first fault.
pub fn reading_agrees<F: Field>(bytes: &[u8], table: &mut [F]) -> bool {
    mark(table);
    match meaning_of::<F>(bytes) {
        Ok(row) => design_agrees(bytes, table, &row),
        Err(fault) => fault_agrees(bytes, table, fault),
    }
}

// Sets the byte at a place.
fn set(card: &mut [u8], place: usize, value: u8) {
    if let Some(byte) = card.get_mut(place) {
        *byte = value;
    }
}

// Damages the byte at a place so many times, each time to the next value.
fn damage_byte<F: Field, V: FnMut(u32) -> u32>(
    card: &mut [u8],
    table: &mut [F],
    place: usize,
    values: u32,
    mut next: V,
) -> Tally
    requires { (f : V) (x : _) → V.pre f x }
{
    let Some(right) = card.get(place).copied() else {
        return Tally::default();
    };
    let tally = Tally::of(values, |step| {
        set(card, place, u8::try_from(next(step)).unwrap_or(0));
        Some(reading_agrees(card, table))
    });
    set(card, place, right);
    tally
}

// Reads a card as it is, cut at every length, with a byte too many, and with each byte damaged. By place, since the card changes
// meanwhile.
pub fn try_card<F: Field>(
    draws: &mut Draws,
    mut card: Vec<u8>,
    table: &mut [F],
) -> Result<Tally, AllocError> {
    let mut tally = Tally::default();
    let length = card.len();
    for place in 0..length {
        tally.note(reading_agrees(card.as_slice().get(..place).unwrap_or(&[]), table));
        tally.add(if length <= SHORT {
            damage_byte(card.as_mut_slice(), table, place, 256, |step| step)
        } else {
            damage_byte(card.as_mut_slice(), table, place, 6, |_| draws.below(256))
        });
    }
    tally.note(reading_agrees(card.as_slice(), table));
    card.push(0)?;
    tally.note(reading_agrees(card.as_slice(), table));
    Ok(tally)
}
