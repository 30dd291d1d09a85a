// The limits of the calls: what just passes, and what is refused by which number.
use crate::station::Tables;
use crate::tally::Tally;
use crate::worked::{square_and_line, with_divisor_s};
use cards::read::read_card;
use cards::write::write_card;
use design::draft::Draft;
use design::framed::Framed;
use fields::fault::Refusal;
use fields::field::Field;
use link::calls::{check, encode, invert};
use std::alloc::{AllocError, Global};
use tones::Tone;
use trial_support::faults::Fault;
use trial_support::sizes::{CARD, GENERATORS, POWERS, ROW};

// The longest message. Not the link's `SYMBOLS`: it is this number that the calls are to confirm.
const LONGEST: usize = 4096;

// The number of a refusal, which docs/refusals.md promises, absent for a grant. Its like in design_tests stays: the trials use no crate of
// the tests.
fn refusal<T: Drop, E: Refusal + Drop>(answer: Result<T, E>) -> Option<u8> {
    answer.err().map(|fault| fault.number())
}

// The refusal of a begin of n generators in a table of a length.
fn begun(n: usize, length: usize) -> Option<u8> {
    let mut table = [Tone::T0; ROW + 1];
    let part = table.get_mut(..length)?;
    refusal(Draft::begin(n, part))
}

// From 2 to 8 generators, in tables of 136 elements.
fn try_begin() -> Tally {
    let mut tally = Tally::default();
    for n in 0..20usize {
        let number = (!(2..=GENERATORS).contains(&n)).then_some(2);
        tally.note(begun(n, ROW) == number);
        tally.note(begun(n, ROW - 1) == Some(1));
        tally.note(begun(n, ROW + 1) == Some(1));
    }
    tally
}

// Generators below n, powers up to 16, codes below 31.
fn try_put() -> Tally {
    let mut tally = Tally::default();
    let mut table = [Tone::T0; ROW];
    let Ok(draft) = Draft::begin(GENERATORS, &mut table) else {
        tally.note(false);
        return tally;
    };
    tally.note(refusal(draft.put(&mut table[0..ROW - 1], GENERATORS, POWERS, 31)) == Some(1));
    for (i, power, code, number) in [
        (7, 16, 30, None),
        (GENERATORS, 16, 30, Some(3)),
        (7, POWERS, 30, Some(4)),
        (7, 16, 31, Some(5)),
        (usize::MAX, usize::MAX, u32::MAX, Some(3)),
        (0, usize::MAX, u32::MAX, Some(4)),
        (0, 0, u32::MAX, Some(5)),
    ] {
        tally.note(refusal(draft.put(&mut table, i, power, code)) == number);
    }
    tally.note(table[ROW - 1].code() == 30);
    tally
}

// Messages of 1 to 4,096 symbols, by each call that takes one.
fn try_length(
    heap: Global,
    framed: &Framed,
    tables: &Tables<Tone>,
    symbols: usize,
) -> Result<Tally, AllocError> {
    let mut tally = Tally::default();
    let number = (!(1..=LONGEST).contains(&symbols)).then_some(12);
    let mut message = vec![in heap; Tone::T4; symbols]?;
    let mut block = vec![in heap; Tone::T0; symbols.saturating_add(2).saturating_mul(2)]?;
    let encoded = encode(
        framed,
        tables.generators.as_slice(),
        message.as_slice(),
        block.as_mut_slice(),
    );
    tally.note(refusal(encoded) == number);
    let checked = check(framed, tables.frame.as_slice(), block.as_slice());
    tally.note(refusal(checked) == number);
    let inverted = invert(
        framed,
        tables.frame.as_slice(),
        block.as_slice(),
        message.as_mut_slice(),
    );
    tally.note(refusal(inverted) == number);
    Ok(tally)
}

// A block of another length than its message asks for, tables of other lengths, and a divisor that is not 1.
fn try_link(framed: &Framed, shared: &Framed, tables: &Tables<Tone>) -> Tally {
    let mut tally = Tally::default();
    let mut message = [Tone::T4; 1];
    let mut block = [Tone::T0; 7];
    let generators = tables.generators.as_slice();
    let frame = tables.frame.as_slice();
    for (design, table, number) in [
        (framed, generators, 12),
        (framed, frame, 1),
        (shared, generators, 11),
    ] {
        tally.note(refusal(encode(design, table, &message, &mut block)) == Some(number));
    }
    tally.note(refusal(check(framed, frame, &[])) == Some(12));
    for (design, table, number) in [
        (framed, frame, 12),
        (framed, generators, 1),
        (shared, frame, 11),
    ] {
        tally.note(refusal(check(design, table, &block)) == Some(number));
        tally.note(refusal(invert(design, table, &block, &mut message)) == Some(number));
    }
    tally
}

// The link at its limits.
fn try_lengths(heap: Global) -> Result<Tally, AllocError> {
    let mut tally = Tally::default();
    let mut tables = Tables::<Tone>::full(heap)?;
    let shared = tables.frame(&with_divisor_s());
    let framed = tables.frame(&square_and_line());
    if let (Some(shared), Some(framed)) = (shared, framed) {
        for symbols in [0, 1, 2, LONGEST - 1, LONGEST, LONGEST + 1] {
            tally.add(try_length(heap, &framed, &tables, symbols)?);
        }
        tally.add(try_link(&framed, &shared, &tables));
    }
    Ok(tally)
}

// How the reading of a card is refused, absent where it is granted.
fn card_fault(bytes: &[u8]) -> Option<Fault> {
    let mut table = [Tone::T0; ROW];
    read_card(bytes, &mut table)
        .err()
        .map(|fault| Fault::of(&fault))
}

// Cards that are granted, and each refusal that comes before any chain is walked.
fn try_heads() -> Tally {
    let mut tally = Tally::default();
    let cards: [(&[u8], Option<u8>); 7] = [
        (&[1, 2, 2, 1, 0, 0, 30, 0, 2, 16, 1, 0, 0], None),
        (&[1, 2, 0, 0, 0], None),
        (&[1, 2], Some(13)),
        (&[1, 2, 0, 0], Some(13)),
        (&[2, 2, 0, 0, 0], Some(14)),
        (&[1, 1, 0, 0], Some(2)),
        (&[1, 9, 0, 0, 0, 0, 0, 0, 0, 0, 0, 0], Some(2)),
    ];
    for (bytes, number) in cards {
        tally.note(card_fault(bytes) == number.map(|number| Fault::new(number, 0)));
    }
    tally
}

// Each refusal of a chain, with its place, on a card of two generators and two records.
fn try_chains() -> Tally {
    let mut tally = Tally::default();
    for (bytes, number, place) in [
        ([1, 2, 2, 3, 0, 0, 30, 0, 2, 16, 1, 0, 0], 15, 3),
        ([1, 2, 2, 1, 0, 0, 30, 0, 2, 17, 1, 0, 0], 4, 9),
        ([1, 2, 2, 1, 0, 0, 30, 0, 2, 0, 1, 0, 0], 16, 9),
        ([1, 2, 2, 1, 0, 0, 31, 0, 2, 16, 1, 0, 0], 5, 6),
        ([1, 2, 2, 1, 0, 0, 30, 1, 2, 16, 1, 0, 0], 5, 6),
        ([1, 2, 2, 1, 0, 0, 0, 0, 2, 16, 1, 0, 0], 17, 6),
        ([1, 2, 2, 1, 0, 0, 30, 0, 1, 16, 1, 0, 0], 16, 5),
    ] {
        tally.note(card_fault(&bytes) == Some(Fault::new(number, place)));
    }
    tally
}

// The refusal of a writing of a card of two zeros, with tables of these lengths.
fn written(generators: usize, buffer: usize) -> Option<u8> {
    let mut table = [Tone::T0; ROW];
    let mut bytes = [0u8; CARD + 1];
    let draft = Draft::begin(2, &mut table).ok()?;
    let table = table.get(..generators)?;
    let bytes = bytes.get_mut(..buffer)?;
    refusal(write_card(&draft, table, bytes))
}

// A card is written into 555 bytes exactly.
fn try_buffers() -> Tally {
    let mut tally = Tally::default();
    tally.note(written(ROW, CARD).is_none());
    tally.note(written(ROW, CARD - 1) == Some(1));
    tally.note(written(ROW, CARD + 1) == Some(1));
    tally.note(written(ROW - 1, CARD) == Some(1));
    tally
}

pub fn try_limits(heap: Global) -> Result<Tally, AllocError> {
    let mut tally = try_lengths(heap)?;
    for part in [
        try_begin(),
        try_put(),
        try_heads(),
        try_chains(),
        try_buffers(),
    ] {
        tally.add(part);
    }
    Ok(tally)
}
