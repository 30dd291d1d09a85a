// Designs whose frames, blocks and cards were worked out by hand.
use crate::framed::frame_agrees;
use crate::keeping::reading_agrees;
use crate::station::{Tables, enter, holds};
use crate::tally::Tally;
use cards::write::write_card;
use fields::field::Field;
use link::calls::{check, encode, invert};
use std::alloc::{AllocError, Global};
use tones::Tone;
use trial_support::rows::Row;
use trial_support::sizes::{CARD, FRAME, POWERS, ROW};

// A nonzero coefficient of a row: its polynomial, power and code. A term of the tests is given to a call, which takes any number as a
// code; this one is a code.
#[derive(Clone, Copy)]
pub struct Term(pub usize, pub usize, pub u16);

// A nonzero coefficient of a frame: its column, component, power and code. The divisor stands where column 8 would.
#[derive(Clone, Copy)]
pub struct Entry(pub u8, pub u8, pub u8, pub u16);

pub fn row_of(n: usize, terms: &[Term]) -> Row {
    let mut row = Row::zeros(n);
    for Term(i, power, code) in terms {
        row.put(*i, *power, *code);
    }
    row
}

// The frame table with these entries and zero elsewhere.
fn frame_of(entries: &[Entry]) -> [u16; FRAME] {
    let mut frame = [0; FRAME];
    for Entry(j, i, power, code) in entries {
        let place = ROW * usize::from(*j) + POWERS * usize::from(*i) + usize::from(*power);
        if let Some(element) = frame.get_mut(place) {
            *element = *code;
        }
    }
    frame
}

// Whether a design is framed as worked out by hand, and both ways of the second solver say the same.
fn frames_to<F: Field + Drop>(
    tables: &mut Tables<F>,
    row: &Row,
    entries: &[Entry],
    degrees: u64,
) -> bool {
    let Some(framed) = tables.frame(row) else {
        return false;
    };
    let frame = tables.frame.as_slice();
    holds(frame, &frame_of(entries))
        && framed.columns() == degrees
        && frame_agrees(row, &framed, frame)
}

// Designs of two generators over tones.
pub fn try_twos(tables: &mut Tables<Tone>) -> Tally {
    let mut tally = Tally::default();
    // (1, s): (1, 0), (s, 30)
    let row = row_of(2, &[Term(0, 0, 1), Term(1, 1, 1)]);
    let entries = [
        Entry(0, 0, 0, 1),
        Entry(1, 0, 1, 1),
        Entry(1, 1, 0, 30),
        Entry(8, 0, 0, 1),
    ];
    tally.note(frames_to(tables, &row, &entries, 256));
    // (s, s + 1): (30, 1), (30 + 30s, s)
    let row = row_of(2, &[Term(0, 1, 1), Term(1, 0, 1), Term(1, 1, 1)]);
    let columns = [
        Entry(0, 0, 0, 30),
        Entry(0, 1, 0, 1),
        Entry(1, 0, 0, 30),
        Entry(1, 0, 1, 30),
        Entry(1, 1, 1, 1),
    ];
    let [a, b, c, d, e] = columns;
    tally.note(frames_to(tables, &row, &[a, b, c, d, e, Entry(8, 0, 0, 1)], 256));
    // (s^2, s^2 + s): the same columns, divisor s
    tally.note(frames_to(
        tables,
        &with_divisor_s(),
        &[a, b, c, d, e, Entry(8, 0, 1, 1)],
        256,
    ));
    // (0, 5): (0, 25), (1, 0)
    let row = row_of(2, &[Term(1, 0, 5)]);
    let entries = [Entry(0, 1, 0, 25), Entry(1, 0, 0, 1), Entry(8, 0, 0, 1)];
    tally.note(frames_to(tables, &row, &entries, 0));
    tally
}

// (s^2, s^2 + s) over tones, whose divisor is s.
pub fn with_divisor_s() -> Row {
    row_of(2, &[Term(0, 2, 1), Term(1, 1, 1), Term(1, 2, 1)])
}

// (s^2, s + 1) over tones.
pub fn square_and_line() -> Row {
    row_of(2, &[Term(0, 2, 1), Term(1, 0, 1), Term(1, 1, 1)])
}

// Designs of two generators and more, over tones.
pub fn try_more(tables: &mut Tables<Tone>) -> Tally {
    let mut tally = Tally::default();
    // (s^2, s + 1): (1, 1 + 30s), (30 + 30s, s^2)
    let entries = [
        Entry(0, 0, 0, 1),
        Entry(0, 1, 0, 1),
        Entry(0, 1, 1, 30),
        Entry(1, 0, 0, 30),
        Entry(1, 0, 1, 30),
        Entry(1, 1, 2, 1),
        Entry(8, 0, 0, 1),
    ];
    tally.note(frames_to(tables, &square_and_line(), &entries, 513));
    // (1, s, s^2): (1, 0, 0), (s, 30, 0), (0, s, 30)
    let row = row_of(3, &[Term(0, 0, 1), Term(1, 1, 1), Term(2, 2, 1)]);
    let entries = [
        Entry(0, 0, 0, 1),
        Entry(1, 0, 1, 1),
        Entry(1, 1, 0, 30),
        Entry(2, 1, 1, 1),
        Entry(2, 2, 0, 30),
        Entry(8, 0, 0, 1),
    ];
    tally.note(frames_to(tables, &row, &entries, 65792));
    // (1, 0, s^3): (1, 0, 0), (0, 1, 0), (s^3, 0, 30)
    let row = row_of(3, &[Term(0, 0, 1), Term(2, 3, 1)]);
    let entries = [
        Entry(0, 0, 0, 1),
        Entry(1, 1, 0, 1),
        Entry(2, 0, 3, 1),
        Entry(2, 2, 0, 30),
        Entry(8, 0, 0, 1),
    ];
    tally.note(frames_to(tables, &row, &entries, 196608));
    tally
}

// Designs over tones: one whose column 0 is shorter than Euclid's, (1, 1 + 30s, 0), and one whose divisor has degree 16.
pub fn try_others(tables: &mut Tables<Tone>) -> Tally {
    let mut tally = Tally::default();
    // (s^2, s + 1, 1): (0, 0, 1), (30, 30 + s, 1), (0, 30, 1 + s)
    let row = row_of(
        3,
        &[Term(0, 2, 1), Term(1, 0, 1), Term(1, 1, 1), Term(2, 0, 1)],
    );
    let entries = [
        Entry(0, 2, 0, 1),
        Entry(1, 0, 0, 30),
        Entry(1, 1, 0, 30),
        Entry(1, 1, 1, 1),
        Entry(1, 2, 0, 1),
        Entry(2, 1, 0, 30),
        Entry(2, 2, 0, 1),
        Entry(2, 2, 1, 1),
        Entry(8, 0, 0, 1),
    ];
    tally.note(frames_to(tables, &row, &entries, 65792));
    // (s^16, s^16): (1, 0), (30, 1), divisor s^16
    let row = row_of(2, &[Term(0, 16, 1), Term(1, 16, 1)]);
    let entries = [
        Entry(0, 0, 0, 1),
        Entry(1, 0, 0, 30),
        Entry(1, 1, 0, 1),
        Entry(8, 0, 16, 1),
    ];
    tally.note(frames_to(tables, &row, &entries, 0));
    tally
}

// Eight generators of degree 16, (s^16, 0, .., 0, 1), over tones: (0, .., 0, 1), the unit vectors 1 to 6, (30, 0, .., 0, s^16)
pub fn try_largest(tables: &mut Tables<Tone>) -> Tally {
    let mut tally = Tally::default();
    let row = row_of(8, &[Term(0, 16, 1), Term(7, 0, 1)]);
    let entries = [
        Entry(0, 7, 0, 1),
        Entry(1, 1, 0, 1),
        Entry(2, 2, 0, 1),
        Entry(3, 3, 0, 1),
        Entry(4, 4, 0, 1),
        Entry(5, 5, 0, 1),
        Entry(6, 6, 0, 1),
        Entry(7, 0, 0, 30),
        Entry(7, 7, 16, 1),
        Entry(8, 0, 0, 1),
    ];
    // Column 7 has degree 16, all others have degree 0.
    tally.note(frames_to(tables, &row, &entries, 16 << 56));
    tally
}

// (16, s), in a field in which 255 is the inverse of 16 and each member is its own negative: (255, 0), (s, 16)
pub fn try_bytes<F: Field + Drop>(tables: &mut Tables<F>) -> Tally {
    let mut tally = Tally::default();
    let row = row_of(2, &[Term(0, 0, 16), Term(1, 1, 1)]);
    let entries = [
        Entry(0, 0, 0, 255),
        Entry(1, 0, 1, 1),
        Entry(1, 1, 0, 16),
        Entry(8, 0, 0, 1),
    ];
    tally.note(frames_to(tables, &row, &entries, 256));
    tally
}

// The message 3 1 under (s^2, s + 1) has the block 0 3 0 4 3 1 1 0, which is clean and brings it home.
pub fn try_block(tables: &mut Tables<Tone>) -> Tally {
    let mut tally = Tally::default();
    let Some(framed) = tables.frame(&square_and_line()) else {
        tally.note(false);
        return tally;
    };
    let message = [Tone::T3, Tone::T1];
    let mut block = [Tone::T0; 8];
    let mut back = [Tone::T0; 2];
    let generators = tables.generators.as_slice();
    let frame = tables.frame.as_slice();
    tally.note(encode(&framed, generators, &message, &mut block).is_ok());
    tally.note(holds(&block, &[0, 3, 0, 4, 3, 1, 1, 0]));
    tally.note(matches!(check(&framed, frame, &block), Ok(true)));
    tally.note(invert(&framed, frame, &block, &mut back).is_ok() && holds(&back, &[3, 1]));
    block[3] = Tone::T9;
    tally.note(matches!(check(&framed, frame, &block), Ok(false)));
    // The hit adds 5 s to stream 1, and column 0 has 1 + 30s there: 5 s - 5 s^2, of which a message of two symbols sees 5 s.
    tally.note(invert(&framed, frame, &block, &mut back).is_ok() && holds(&back, &[3, 6]));
    tally
}

// The card of (s^2, s + 1), byte for byte, and what comes of it when its bytes are damaged.
pub fn try_card_bytes(tables: &mut Tables<Tone>) -> Tally {
    let mut tally = Tally::default();
    let bytes = [1, 2, 3, 1, 2, 2, 1, 0, 0, 0, 1, 0, 3, 1, 1, 0, 0];
    let mut buffer = [9u8; CARD];
    let generators = tables.generators.as_mut_slice();
    if let Ok(draft) = enter(&square_and_line(), generators) {
        let written = write_card(&draft, generators, &mut buffer);
        tally.note(matches!(written, Ok(17)));
    }
    tally.note(buffer.get(..bytes.len()) == Some(&bytes));
    tally.note(buffer.iter().skip(bytes.len()).all(|byte| *byte == 0));
    tally.note(reading_agrees(&bytes, generators));
    tally
}

// All worked designs, with the tables of tones and of bytes.
pub fn try_worked<F: Field + Clone + Drop>(heap: Global) -> Result<Tally, AllocError> {
    let mut tones = Tables::<Tone>::full(heap)?;
    let mut bytes = Tables::<F>::full(heap)?;
    let mut tally = try_twos(&mut tones);
    tally.add(try_more(&mut tones));
    tally.add(try_others(&mut tones));
    tally.add(try_largest(&mut tones));
    tally.add(try_bytes(&mut bytes));
    tally.add(try_block(&mut tones));
    tally.add(try_card_bytes(&mut tones));
    Ok(tally)
}
