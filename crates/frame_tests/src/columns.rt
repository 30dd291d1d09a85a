// Elimination of whole matrices, columns one behind the other, which framing takes one by one.
use elimination::{Steps, eliminate};
use tones::Tone;

// The columns (0, 2), (0, 6), (1, 4): the second is three times the first, the third is the pivotal one after it, as (4/2, 1).
#[test]
fn a_matrix_of_three_columns(rt: HostRuntime) {
    let mut matrix = [Tone::T0, Tone::T2, Tone::T0, Tone::T6, Tone::T1, Tone::T4];
    let mut factors = [Tone::T0; 4];
    let mut pivots = [0; 2];
    let mut places = [9; 2];
    let rank = eliminate(2, 3, &mut matrix, &mut factors, &mut pivots, &mut places);
    assert_eq!(rt; rank, 2);
    assert_eq!(rt; places, [0, 2]);
    assert_eq!(rt; matrix[2], Tone::T3);
    assert_eq!(rt; matrix[3], Tone::T0);
}

// Its second column alone, taken as column 5 of others.
#[test]
fn a_column_from_elsewhere(rt: HostRuntime) {
    let mut matrix = [Tone::T0, Tone::T2, Tone::T0, Tone::T6];
    let mut factors = [Tone::T0; 4];
    let mut pivots = [0; 2];
    let mut places = [9; 2];
    let mut steps = Steps::new(2, &mut factors, &mut pivots);
    assert!(rt; steps.take_next(&mut places, &mut matrix, 1, 5));
    assert_eq!(rt; steps.rank, 1);
    assert_eq!(rt; places[0], 5);
}
