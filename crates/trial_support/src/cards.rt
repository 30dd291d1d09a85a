// Cards by their layout: what a design's card holds byte for byte, and what any bytes mean as a card.
ghost use Rattle.std.specs.Prelude.{◌≡◌, IfOk, take};

use crate::faults::Fault;
use crate::rows::Row;
use crate::sizes::{CARD, GENERATORS, HEADER, POWERS, RECORD};
use fields::field::Field;
use std::alloc::{AllocError, Global};

// How many coefficients of a list are not zero, as a byte.
fn terms(list: &[u16]) -> u8 {
    let count = list.iter().filter(|code| **code != 0).count();
    u8::try_from(count).unwrap_or(u8::MAX)
}

// The bytes of a card, zeros after its length.
#[derive(Clone, Copy)]
pub struct Card {
    pub bytes: [u8; CARD],
    pub length: usize,
}

impl Card {
    // The bytes up to the length.
    pub fn to_vec(&self, heap: Global) -> Result<Vec<u8>, AllocError>
        ensures bytes { IfOk result (λ v. v.items ≡ take self.now.length self.now.bytes) }
    {
        Vec::from_slice(heap, &self.bytes[..self.length.min(CARD)])
    }

    // Sets the byte at a place; what there is none of is passed over.
    fn set(&mut self, place: usize, byte: u8) {
        if let Some(kept) = self.bytes.get_mut(place) {
            *kept = byte;
        }
    }

    // Appends a byte.
    fn push(&mut self, byte: u8) {
        self.set(self.length, byte);
        self.length = self.length.saturating_add(1);
    }
}

// Appends the records of a polynomial, each with the number of the next, 0 at the last; the first of them has a number.
fn push_chain(card: &mut Card, polynomial: &[u16], first: u8) {
    let mut next = first;
    let mut left = terms(polynomial);
    for (power, code) in (0u8..).zip(polynomial) {
        if *code != 0 {
            next = next.saturating_add(1);
            left = left.saturating_sub(1);
            let [low, high] = code.to_le_bytes();
            for byte in [power, low, high, if left == 0 { 0 } else { next }] {
                card.push(byte);
            }
        }
    }
}

// The card of a row: the kind, n, how many records there are; the number of each polynomial's first record, 0 where it is zero; the
// records. No contract: it would be the layout once more, which the trials compare with the library's, byte for byte.
pub fn card_of<F: Field>(row: &Row) -> Card {
    let mut card = Card {
        bytes: [0; CARD],
        length: row.n.saturating_add(HEADER),
    };
    card.set(0, F::kind());
    card.set(1, u8::try_from(row.n).unwrap_or(u8::MAX));
    card.set(2, terms(row.polynomials().as_flattened()));
    let mut first = 1u8;
    for (head, polynomial) in (HEADER..).zip(row.polynomials()) {
        let terms = terms(polynomial);
        card.set(head, if terms == 0 { 0 } else { first });
        push_chain(&mut card, polynomial, first);
        first = first.saturating_add(terms);
    }
    card
}

// The byte at a place, 0 past the end: what lies there counts as zero, and the length is judged apart.
fn byte(card: &[u8], place: usize) -> u8 {
    card.get(place).copied().unwrap_or(0)
}

// The place of the record that the link at a place leads to, absent where it is zero.
fn follow(card: &[u8], place: usize) -> Result<Option<usize>, Fault> {
    let link = byte(card, place);
    if byte(card, 2) < link {
        return Err(Fault::new(15, place));
    }
    let heads = usize::from(byte(card, 1));
    Ok(
        link.checked_sub(1)
            .map(|before| HEADER + heads + RECORD * usize::from(before)),
    )
}

// A record of a chain.
#[derive(Clone, Copy)]
struct Record {
    power: u8,
    code: u16,
}

// The record at a place, whose power must not be below a floor.
fn read_record<F: Field>(card: &[u8], place: usize, floor: u8) -> Result<Record, Fault> {
    let low = place.saturating_add(1);
    let power = byte(card, place);
    let code = u16::from_le_bytes([byte(card, low), byte(card, low.saturating_add(1))]);
    if POWERS <= usize::from(power) {
        Err(Fault::new(4, place))
    } else if power < floor {
        Err(Fault::new(16, place))
    } else if F::size() <= u32::from(code) {
        Err(Fault::new(5, low))
    } else if code == 0 {
        Err(Fault::new(17, low))
    } else {
        Ok(Record { power, code })
    }
}

// The polynomial whose chain, of a record for each power at most, begins at a head.
fn read_chain<F: Field>(card: &[u8], head: usize) -> Result<[u16; POWERS], Fault> {
    let mut polynomial = [0; POWERS];
    let mut link = head;
    let mut floor = 0;
    for _ in 0..=POWERS {
        let Some(place) = follow(card, link)? else {
            return Ok(polynomial);
        };
        let Record { power, code } = read_record::<F>(card, place, floor)?;
        if let Some(coefficient) = polynomial.get_mut(usize::from(power)) {
            *coefficient = code;
        }
        floor = power.saturating_add(1);
        link = place.saturating_add(RECORD - 1);
    }
    Err(Fault::new(16, link))
}

// The number of generators of a card, by the questions that are asked before any chain is walked.
fn read_head<F: Field>(card: &[u8]) -> Result<usize, Fault> {
    let n = usize::from(byte(card, 1));
    let length = HEADER + n + RECORD * usize::from(byte(card, 2));
    if card.len() < HEADER || card.len() != length {
        Err(Fault::new(13, 0))
    } else if byte(card, 0) != F::kind() {
        Err(Fault::new(14, 0))
    } else if !(2..=GENERATORS).contains(&n) {
        Err(Fault::new(2, 0))
    } else {
        Ok(n)
    }
}

// What bytes mean as a card: a row, or the first fault. No contract, as that of `card_of`: the trials compare it with what the library reads.
pub fn meaning_of<F: Field>(card: &[u8]) -> Result<Row, Fault> {
    let n = read_head::<F>(card)?;
    let mut row = Row::zeros(n);
    for (polynomial, head) in row.polynomials.iter_mut().take(n).zip(HEADER..) {
        *polynomial = read_chain::<F>(card, head)?;
    }
    Ok(row)
}
