// What the tests and the trials stand on: drawn numbers, and the trials' rows, blocks and codes.
use fields::fault::FieldFault;
use fields::field::Field;
use random::Random;
use std::test::Fail;
use tones::Tone;
use trial_support::blocks::{
    code_at, column, component, degree_of, differences, is_block, product_with, same_outside,
};
use trial_support::cards::card_of;
use trial_support::codes::{top_of, write_members};
use trial_support::draws::Draws;
use trial_support::faults::Fault;
use trial_support::rows::Row;
use trial_support::sizes::{COLUMNS, LENGTH, ROW};

// The code of the first element, 0 where there is none.
fn first(part: &[Tone]) -> u16 {
    part.first().map_or(0, |x| x.code())
}

// The states from 0 on are 3c6ef35f, 47502932, d1ccf6e9 in base 16; a draw takes their upper halves, 15470 and 18256 = 31·588 + 28. From
// 2 on the first is 3ca1bf79, with the upper half 15521.
#[test]
fn drawn_numbers(rt: HostRuntime) {
    let mut random = Random::seeded(0);
    assert_eq!(rt; random.below(65536), 15470);
    assert_eq!(rt; random.below(31), 28);
    assert_eq!(rt; Random::seeded(2).below(65536), 15521);
    let mut table = [Tone::T0; 2];
    Random::seeded(0).fill(&mut table);
    assert_eq!(rt; table, [Tone::T1, Tone::T28]);
}

// Below 1 there is 0 alone.
#[test]
fn draws_below_one(rt: HostRuntime) {
    let mut draws = Draws::from_seed(1);
    for _ in 0..20 {
        assert_eq!(rt; draws.below(1), 0);
        assert_eq!(rt; draws.place(1), 0);
    }
}

// From 2 on the first state has the upper bits 1649717740, and from 3 on 243117059.
#[test]
fn draws_from_seeds(rt: HostRuntime) {
    assert_eq!(rt; Draws::from_seed(2).below(1000), 740);
    assert_eq!(rt; Draws::from_seed(3).below(1000), 59);
    let mut draws = Draws::from_seed(1);
    for _ in 0..500 {
        assert!(rt; draws.code::<Tone>() < 31);
    }
}

#[test]
fn codes_of_lists(rt: HostRuntime) {
    assert_eq!(rt; top_of(&[0, 3, 0]), Some(1));
    assert_eq!(rt; top_of(&[0, 0]), None);
    let mut table = [Tone::T5; 3];
    write_members(&mut table, &[1, 2]);
    assert_eq!(rt; table, [Tone::T1, Tone::T2, Tone::T5]);
    assert_eq!(rt; code_at(&table, 2), 5);
    assert_eq!(rt; code_at(&table, 3), 0);
}

#[test]
fn parts_of_frames(rt: HostRuntime) {
    let mut frame = [Tone::T0; COLUMNS];
    frame[ROW] = Tone::T3;
    frame[ROW + 17] = Tone::T4;
    frame[ROW + 20] = Tone::T6;
    let last = column(&frame, 1);
    assert_eq!(rt; first(last), 3);
    assert_eq!(rt; first(component(last, 1)), 4);
    assert_eq!(rt; degree_of(1, last), Some(0));
    assert_eq!(rt; degree_of(2, last), Some(3));
    assert_eq!(rt; degree_of(2, column(&frame, 0)), None);
}

#[test]
fn messages_compared(rt: HostRuntime) {
    let left = [Tone::T1, Tone::T2, Tone::T3];
    let right = [Tone::T1, Tone::T5, Tone::T3];
    assert_eq!(rt; differences(&left, &right), 1);
    assert!(rt; same_outside(&left, &right, 1, 1));
    assert!(rt; !same_outside(&left, &right, 0, 0));
}

// The row (1, s): the block of the message 3 1 is (3, 0), (1, 3), (0, 1), and its product with (s, 30) is zero.
#[test]
fn a_row_and_a_block(rt: HostRuntime) {
    let mut row = Row::zeros(2);
    assert!(rt; row.is_zero());
    row.put(1, 1, 1);
    assert!(rt; !row.is_zero());
    assert!(rt; row.is_alone(1));
    assert!(rt; !row.is_alone(0));
    assert_eq!(rt; row.polynomials().len(), 2);
    row.put(0, 0, 1);
    let message = [Tone::T3, Tone::T1];
    let mut block = [Tone::T3, Tone::T0, Tone::T1, Tone::T3, Tone::T0, Tone::T1];
    assert!(rt; is_block(&row, &message, &block));
    block[5] = Tone::T2;
    assert!(rt; !is_block(&row, &message, &block));
    let mut check = [Tone::T0; ROW];
    check[1] = Tone::T1;
    check[17] = Tone::T30;
    assert!(rt; product_with(&row, &check) == [0; LENGTH]);
}

// A row of no polynomials has no streams, and of a row of nine the ninth is zero.
#[test]
fn rows_of_any_count(rt: HostRuntime) {
    let none = Row::zeros(0);
    assert_eq!(rt; none.n, 0);
    assert_eq!(rt; none.polynomials().len(), 0);
    assert!(rt; is_block(&none, &[Tone::T1], &[Tone::T1]));
    let mut nine = Row::zeros(9);
    nine.put(7, 0, 1);
    assert_eq!(rt; nine.n, 9);
    assert_eq!(rt; nine.polynomials().len(), 8);
    let mut block = [Tone::T0; 9];
    block[7] = Tone::T1;
    assert!(rt; is_block(&nine, &[Tone::T1], &block));
    block[8] = Tone::T1;
    assert!(rt; !is_block(&nine, &[Tone::T1], &block));
}

// The card of (s^2, s + 1) over tones, byte for byte.
#[test]
fn a_card(rt: HostRuntime) -> Result<(), Fail> {
    let mut row = Row::zeros(2);
    row.put(0, 2, 1);
    row.put(1, 0, 1);
    row.put(1, 1, 1);
    let bytes = [1u8, 2, 3, 1, 2, 2, 1, 0, 0, 0, 1, 0, 3, 1, 1, 0, 0];
    let card = card_of::<Tone>(&row);
    assert_eq!(rt; card.length, bytes.len());
    let listed = card.to_vec(rt.alloc())?;
    assert!(rt; listed.as_slice() == bytes.as_slice());
    Ok(())
}

// A refused code has number 5 and no place.
#[test]
fn faults_as_refusals_say(rt: HostRuntime) {
    let fault = Fault::new(17, 4);
    assert_eq!(rt; fault.number, 17);
    assert_eq!(rt; fault.place, 4);
    assert!(rt; Fault::of(&FieldFault::CodeTooLarge) == Fault::new(5, 0));
}
