// Parts of tables and products of polynomials, which rows of one width do not tell apart.
use polynomials::multiply_into;
use tables::rows::{clear_part, copy, copy_from, swap};
use tones::Tone;

const TABLE: [Tone; 5] = [Tone::T1, Tone::T2, Tone::T3, Tone::T4, Tone::T5];

#[test]
fn parts_cleared_and_copied(rt: HostRuntime) {
    let mut cleared = TABLE;
    clear_part(&mut cleared, 1, 2);
    assert_eq!(rt; cleared, [Tone::T1, Tone::T0, Tone::T0, Tone::T4, Tone::T5]);
    let mut copied = TABLE;
    copy(&mut copied, 0, 3, 2);
    assert_eq!(rt; copied, [Tone::T1, Tone::T2, Tone::T3, Tone::T1, Tone::T2]);
    let mut written = [Tone::T9; 3];
    copy_from(&TABLE, 2, &mut written, 1, 2);
    assert_eq!(rt; written, [Tone::T9, Tone::T3, Tone::T4]);
}

#[test]
fn rows_swapped(rt: HostRuntime) {
    let mut left = [Tone::T1, Tone::T2];
    let mut right = [Tone::T3, Tone::T4];
    swap(&mut left, &mut right);
    assert_eq!(rt; left, [Tone::T3, Tone::T4]);
    assert_eq!(rt; right, [Tone::T1, Tone::T2]);
}

// (1 + 2s)·(3 + 4s + 5s^2) = 3 + 10s + 13s^2 + 10s^3
#[test]
fn product_of_two_widths(rt: HostRuntime) {
    let mut product = [Tone::T0; 4];
    multiply_into(
        &mut product,
        &[Tone::T1, Tone::T2],
        &[Tone::T3, Tone::T4, Tone::T5],
    );
    assert_eq!(rt; product, [Tone::T3, Tone::T10, Tone::T13, Tone::T10]);
}
