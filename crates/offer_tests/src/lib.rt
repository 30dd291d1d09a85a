// Tests of offering a frame: each refusal, their order, which frames are taken, and what the call leaves in the tables.
#![tactic(auto)]

#[cfg(test)]
mod tests {
    use fields::fault::Refusal;
    use fields::field::Field;
    use nibbles::Nibble;
    use std::process::Abort;
    use std::test::Fail;
    use tables::sizes::{COLUMNS, GENERATORS, MAX_COUNT, WIDTH};
    use test_support::designs::{Design, Tables, Term};
    use test_support::elements::{Cell, holds, sum_of_codes, write};
    use tones::Tone;
    use towers::{Byte, TonePair};

    // A granted offer has these packed column degrees and a divisor that is this power of s; a refusal has this number and place, which
    // docs/refusals.md promises.
    type Answer = Result<(u64, usize), (u8, usize)>;

    // Zeros in rows and columns 0 to n - 1 of an offered table.
    fn clear<F: Field>(n: usize, offered: &mut [F]) {
        for column in offered.chunks_mut(GENERATORS).take(n) {
            if let Some(rows) = column.get_mut(..n.saturating_mul(WIDTH)) {
                tables::clear(rows);
            }
        }
    }

    // Offers the cells for a design, with tables full of ones, and compares the answer and the tables.
    fn offers<F: Field + Clone>(
        rt: &(impl Abort + AllocGlobal),
        design: Design<'_>,
        cells: &[Cell],
        answer: Answer,
    ) -> Result<(), Fail> {
        let mut tables = Tables::full_of(rt.alloc(), F::one())?;
        let mut offered = vec![in rt.alloc(); F::one(); COLUMNS]?;
        let draft = design.enter(&mut tables.generators)?;
        clear(design.n, &mut offered);
        assert!(rt; write(&mut offered, cells)?);
        let answered = draft.offer(
            &tables.generators,
            &offered,
            &mut tables.frame,
            &mut tables.work,
        );
        match (answered, answer) {
            (Ok(framed), Ok((columns, divisor))) => {
                assert_eq!(rt; framed.columns(), columns);
                assert!(rt; holds(tables.columns(), cells));
                assert!(rt; holds(tables.divisor(), &[(divisor, 1)]));
            }
            (Err(back), Err((number, place))) => {
                assert_eq!(rt; back.fault.number(), number);
                assert_eq!(rt; back.fault.place(), place);
                assert_eq!(rt; sum_of_codes(&tables.frame), 1105);
            }
            (Ok(_), Err(_)) => return Err(Fail::new("granted")),
            (Err(_), Ok(_)) => return Err(Fail::new("refused")),
        }
        assert_eq!(rt; sum_of_codes(&tables.work), 0);
        Ok(())
    }

    // The generators (1, s).
    const TWO: Design<'static> = Design {
        n: 2,
        terms: &[Term(0, 0, 1), Term(1, 1, 1)],
    };

    // The generators (1, 0, s^3).
    const CUBE: Design<'static> = Design {
        n: 3,
        terms: &[Term(0, 0, 1), Term(2, 3, 1)],
    };

    // The generators (1, s, s^2).
    const THREE: Design<'static> = Design {
        n: 3,
        terms: &[Term(0, 0, 1), Term(1, 1, 1), Term(2, 2, 1)],
    };

    #[test]
    fn each_refusal_for_two_generators(rt: HostRuntime) -> Result<(), Fail> {
        // (1, 0), (s, 30) is the frame of (1, s)
        let frame = Ok((256, 0));
        offers::<Tone>(&rt, TWO, &[(0, 1), (137, 1), (153, 30)], frame)?;
        // the check column times 2
        offers::<Tone>(&rt, TWO, &[(0, 1), (137, 2), (153, 29)], frame)?;
        // column 0 times 2: the product is 2
        let first = Err((7, 0));
        offers::<Tone>(&rt, TWO, &[(0, 2), (137, 1), (153, 30)], first)?;
        // (s, 29): the product is 30s
        let check = Err((8, 1));
        offers::<Tone>(&rt, TWO, &[(0, 1), (137, 1), (153, 29)], check)?;
        // (s^2, 30s), the check column times s
        let degrees = Err((9, 0));
        offers::<Tone>(&rt, TWO, &[(0, 1), (138, 1), (154, 30)], degrees)?;
        // no check column
        offers::<Tone>(&rt, TWO, &[(0, 1)], degrees)?;
        // (1 + s, 30), column 0 plus the check column
        let leading = Err((10, 0));
        let longer = [(0, 1), (1, 1), (17, 30), (137, 1), (153, 30)];
        offers::<Tone>(&rt, TWO, &longer, leading)?;
        // all generators zero, (1, 0), (0, 1)
        let none = Design { n: 2, terms: &[] };
        offers::<Tone>(&rt, none, &[(0, 1), (153, 1)], Err((6, 0)))
    }

    // Of each pair both are answered no, and every other question yes.
    #[test]
    fn the_first_no_is_the_refusal(rt: HostRuntime) -> Result<(), Fail> {
        // 7 before 8: (2, 0), (s, 29)
        offers::<Tone>(&rt, TWO, &[(0, 2), (137, 1), (153, 29)], Err((7, 0)))?;
        // 7 before 9: (2, 0), (s^2, 30s)
        offers::<Tone>(&rt, TWO, &[(0, 2), (138, 1), (154, 30)], Err((7, 0)))?;
        // 7 before 10: (2 + s, 30), (s, 30)
        let inside = [(0, 2), (1, 1), (17, 30), (137, 1), (153, 30)];
        offers::<Tone>(&rt, TWO, &inside, Err((7, 0)))?;
        // 8 before 9: (1, 0), (s^2, 29s)
        offers::<Tone>(&rt, TWO, &[(0, 1), (138, 1), (154, 29)], Err((8, 1)))?;
        // 8 before 10: (1 + s, 30), (s, 29)
        let beside = [(0, 1), (1, 1), (17, 30), (137, 1), (153, 29)];
        offers::<Tone>(&rt, TWO, &beside, Err((8, 1)))?;
        // 9 before 10: (1 + s^2, 30s), (s^2, 30s)
        let long = [(0, 1), (2, 1), (18, 30), (138, 1), (154, 30)];
        offers::<Tone>(&rt, TWO, &long, Err((9, 0)))
    }

    #[test]
    fn before_the_degrees(rt: HostRuntime) -> Result<(), Fail> {
        // All generators zero, so that every product is: 6 before 9, no check column, and before 10, (1, 0), (1, 0)
        let none = Design { n: 2, terms: &[] };
        offers::<Tone>(&rt, none, &[(0, 1)], Err((6, 0)))?;
        offers::<Tone>(&rt, none, &[(0, 1), (136, 1)], Err((6, 0)))?;
        // nothing but zeros: 7 before 9; (0, 0), (s, 0): 7 before 8
        offers::<Tone>(&rt, TWO, &[], Err((7, 0)))?;
        offers::<Tone>(&rt, TWO, &[(137, 1)], Err((7, 0)))?;
        // 8 before 9: (0, 1, 0), then (s^4, 0, 30), which has another product and degree
        let other = [(0, 1), (153, 1), (276, 1), (306, 30)];
        offers::<Tone>(&rt, CUBE, &other, Err((8, 2)))?;
        // the lowest of two with 8: (1, 0, 0), (1, 0, 0)
        let both = [(0, 1), (136, 1), (272, 1)];
        offers::<Tone>(&rt, CUBE, &both, Err((8, 1)))
    }

    #[test]
    fn changes_that_keep_the_degrees(rt: HostRuntime) -> Result<(), Fail> {
        // (1, 0, 0), (0, 1, 0), (s^3, 0, 30) for (1, 0, s^3)
        let frame = Ok((196608, 0));
        let own = [(0, 1), (153, 1), (275, 1), (306, 30)];
        offers::<Tone>(&rt, CUBE, &own, frame)?;
        // the last check column plus s^2 times the other, and plus s^3 times it
        let lower = [(0, 1), (153, 1), (275, 1), (291, 1), (306, 30)];
        offers::<Tone>(&rt, CUBE, &lower, frame)?;
        let equal = [(0, 1), (153, 1), (275, 1), (292, 1), (306, 30)];
        offers::<Tone>(&rt, CUBE, &equal, frame)?;
        // plus s^4 times it: the degrees add up to 4
        let higher = [(0, 1), (153, 1), (275, 1), (293, 1), (306, 30)];
        offers::<Tone>(&rt, CUBE, &higher, Err((9, 0)))?;
        // column 0 plus 5 times check column 1, and plus s times it
        let beside = [(0, 1), (17, 5), (153, 1), (275, 1), (306, 30)];
        offers::<Tone>(&rt, CUBE, &beside, frame)?;
        let beyond = [(0, 1), (18, 1), (153, 1), (275, 1), (306, 30)];
        offers::<Tone>(&rt, CUBE, &beyond, Err((10, 0)))?;
        // the check columns exchanged
        let fall = [(0, 1), (139, 1), (170, 30), (289, 1)];
        offers::<Tone>(&rt, CUBE, &fall, Err((9, 0)))
    }

    #[test]
    fn leading_vectors_of_three(rt: HostRuntime) -> Result<(), Fail> {
        // (1, 0, 0), (s, 30, 0), (s, s + 30, 30) for (1, s, s^2), and the check columns exchanged
        let frame = Ok((65792, 0));
        let sum = [
            (0, 1),
            (137, 1),
            (153, 30),
            (273, 1),
            (289, 30),
            (290, 1),
            (306, 30),
        ];
        offers::<Tone>(&rt, THREE, &sum, frame)?;
        let turned = [
            (0, 1),
            (137, 1),
            (153, 30),
            (154, 1),
            (170, 30),
            (273, 1),
            (289, 30),
        ];
        offers::<Tone>(&rt, THREE, &turned, frame)?;
        // (s, 30, 0), (2s, 29, 0): the degrees are right, and the leading vectors dependent
        let twice = [(0, 1), (137, 1), (153, 30), (273, 2), (289, 29)];
        offers::<Tone>(&rt, THREE, &twice, Err((9, 0)))
    }

    #[test]
    fn first_columns_for_one_row(rt: HostRuntime) -> Result<(), Fail> {
        // (0, 0, 1), (0, 1, 30 + 30s), (1, 1 + 30s, 30) for (s^2, s + 1, 1)
        let design = Design {
            n: 3,
            terms: &[Term(0, 2, 1), Term(1, 0, 1), Term(1, 1, 1), Term(2, 0, 1)],
        };
        let least = [
            (34, 1),
            (153, 1),
            (170, 30),
            (171, 30),
            (272, 1),
            (289, 1),
            (290, 30),
            (306, 30),
        ];
        offers::<Tone>(&rt, design, &least, Ok((65792, 0)))?;
        // Euclid's chain gives (1, 1 + 30s, 0) for column 0
        let chain = [
            (0, 1),
            (17, 1),
            (18, 30),
            (153, 1),
            (170, 30),
            (171, 30),
            (272, 1),
            (289, 1),
            (290, 30),
            (306, 30),
        ];
        offers::<Tone>(&rt, design, &chain, Err((10, 0)))
    }

    #[test]
    fn a_divisor_and_other_fields(rt: HostRuntime) -> Result<(), Fail> {
        // (30, 1), (30 + 30s, s) for (s^2, s^2 + s), with the divisor s
        let shared = Design {
            n: 2,
            terms: &[Term(0, 2, 1), Term(1, 1, 1), Term(1, 2, 1)],
        };
        let cells = [(0, 30), (17, 1), (136, 30), (137, 30), (154, 1)];
        offers::<Tone>(&rt, shared, &cells, Ok((256, 1)))?;
        // (1, 0), (2s, 2): in nibbles and bytes each member is its own negative
        let frame = Ok((256, 0));
        offers::<Nibble>(&rt, TWO, &[(0, 1), (137, 2), (153, 2)], frame)?;
        offers::<Byte>(&rt, TWO, &[(0, 1), (137, 2), (153, 2)], frame)?;
        let check = Err((8, 1));
        offers::<Byte>(&rt, TWO, &[(0, 1), (137, 2), (153, 3)], check)?;
        // bytes (16, s): (255, 0), (s, 16)
        let bytes = Design {
            n: 2,
            terms: &[Term(0, 0, 16), Term(1, 1, 1)],
        };
        offers::<Byte>(&rt, bytes, &[(0, 255), (137, 1), (153, 16)], frame)?;
        // (1, 0), (s, 30) in tone pairs
        offers::<TonePair>(&rt, TWO, &[(0, 1), (137, 1), (153, 30)], frame)
    }

    // The generators (s^16, 0, 0, 0, 0, 0, 0, 1).
    const LONGEST: Design<'static> = Design {
        n: MAX_COUNT,
        terms: &[Term(0, 16, 1), Term(7, 0, 1)],
    };

    #[test]
    fn a_frame_at_the_limits(rt: HostRuntime) -> Result<(), Fail> {
        // the last check column is (30, 0, .., 0, s^16)
        let own = [
            (119, 1),
            (153, 1),
            (306, 1),
            (459, 1),
            (612, 1),
            (765, 1),
            (918, 1),
            (952, 30),
            (1087, 1),
        ];
        let frame = Ok((1152921504606846976, 0));
        offers::<Tone>(&rt, LONGEST, &own, frame)
    }

    #[test]
    fn refusals_at_the_limits(rt: HostRuntime) -> Result<(), Fail> {
        // s^16 more in a component: the products have s^32 more
        let check = [
            (119, 1),
            (153, 1),
            (306, 1),
            (459, 1),
            (612, 1),
            (765, 1),
            (918, 1),
            (952, 30),
            (968, 1),
            (1087, 1),
        ];
        offers::<Tone>(&rt, LONGEST, &check, Err((8, 7)))?;
        let first = [
            (16, 1),
            (119, 1),
            (153, 1),
            (306, 1),
            (459, 1),
            (612, 1),
            (765, 1),
            (918, 1),
            (952, 30),
            (1087, 1),
        ];
        offers::<Tone>(&rt, LONGEST, &first, Err((7, 0)))
    }

    // Lengths of the generators, the offered table, the frame and the work table.
    type Lengths = (usize, usize, usize, usize);

    // Offers the cells for a design, with tables of these lengths, of which one is wrong: the refusal speaks of lengths alone, and every
    // table stays as it was.
    // It stands apart from that of framing: an offer brings one table more, and what it leaves in the work table is compared too.
    fn refused(
        rt: &(impl Abort + AllocGlobal),
        design: Design<'_>,
        cells: &[Cell],
        (generators, offered, frame, work): Lengths,
    ) -> Result<(), Fail> {
        let heap = rt.alloc();
        let mut table = vec![in heap; Tone::T0; GENERATORS]?;
        let mut columns = vec![in heap; Tone::T0; COLUMNS]?;
        let draft = design.enter(&mut table)?;
        assert!(rt; write(&mut columns, cells)?);
        table.resize(generators, Tone::T0)?;
        columns.resize(offered, Tone::T0)?;
        let mut frame = vec![in heap; Tone::T7; frame]?;
        let mut work = vec![in heap; Tone::T7; work]?;
        let Err(back) = draft.offer(&table, &columns, &mut frame, &mut work) else {
            return Err(Fail::new("granted"));
        };
        assert_eq!(rt; back.fault.number(), 1);
        assert_eq!(rt; back.fault.place(), 0);
        assert_eq!(rt; back.design.count(), design.n);
        assert!(rt; frame.iter().all(|x| *x == Tone::T7));
        assert!(rt; work.iter().all(|x| *x == Tone::T7));
        Ok(())
    }

    // Offers the cells for a design with each table one element short, and one long.
    fn refused_by_length(
        rt: &(impl Abort + AllocGlobal),
        design: Design<'_>,
        cells: &[Cell],
    ) -> Result<(), Fail> {
        for lengths in [
            (135, 1088, 1105, 4521),
            (137, 1088, 1105, 4521),
            (136, 1087, 1105, 4521),
            (136, 1089, 1105, 4521),
            (136, 1088, 1104, 4521),
            (136, 1088, 1106, 4521),
            (136, 1088, 1105, 4520),
            (136, 1088, 1105, 4522),
        ] {
            refused(rt, design, cells, lengths)?;
        }
        Ok(())
    }

    #[test]
    fn lengths_before_everything_else(rt: HostRuntime) -> Result<(), Fail> {
        // the frame of (1, s)
        refused_by_length(&rt, TWO, &[(0, 1), (137, 1), (153, 30)])?;
        // 1 before 6
        let none = Design { n: 2, terms: &[] };
        refused_by_length(&rt, none, &[(0, 1), (137, 1), (153, 30)])?;
        // 1 before 7: (2, 0), (s, 30)
        refused_by_length(&rt, TWO, &[(0, 2), (137, 1), (153, 30)])?;
        // 1 before 8: (1, 0), (s, 29)
        refused_by_length(&rt, TWO, &[(0, 1), (137, 1), (153, 29)])?;
        // 1 before 9: (1, 0), (s^2, 30s)
        refused_by_length(&rt, TWO, &[(0, 1), (138, 1), (154, 30)])?;
        // 1 before 10: (1 + s, 30), (s, 30)
        let longer = [(0, 1), (1, 1), (17, 30), (137, 1), (153, 30)];
        refused_by_length(&rt, TWO, &longer)
    }
}
