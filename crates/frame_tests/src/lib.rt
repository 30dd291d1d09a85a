// Tests of framing: worked designs through the call, its refusals, and what it leaves in the tables.
#![tactic(auto)]

#[cfg(test)]
mod columns;

#[cfg(test)]
mod tests {
    use design::draft::Draft;
    use design::fault::DesignFault;
    use design::framed::Framed;
    use fields::fault::Refusal;
    use fields::field::Field;
    use std::alloc::Global;
    use std::process::Abort;
    use std::test::Fail;
    use tables::sizes::{GENERATORS, MAX_COUNT};
    use test_support::designs::{Design, Tables, Term};
    use test_support::elements::{Cell, code_at, holds, sum_of_codes};
    use tones::Tone;
    use towers::Byte;

    // Frames a design, and compares the frame table with the nonzero codes given by their places.
    fn frames_to<F: Field + Clone>(
        rt: &(impl Abort + AllocGlobal),
        design: Design<'_>,
        expected: &[Cell],
        degrees: u64,
    ) -> Result<(), Fail> {
        let mut tables = Tables::full_of(rt.alloc(), F::one())?;
        let draft = design.enter(&mut tables.generators)?;
        let Ok(framed) = draft.frame(&tables.generators, &mut tables.frame, &mut tables.work) else {
            return Err(Fail::new("refused"));
        };
        assert!(rt; holds(&tables.frame, expected));
        assert_eq!(rt; sum_of_codes(&tables.work), 0);
        assert_eq!(rt; framed.columns(), degrees);
        Ok(())
    }

    #[test]
    fn designs_of_least_degree(rt: HostRuntime) -> Result<(), Fail> {
        // (1, s): (1, 0), (s, 30)
        frames_to::<Tone>(
            &rt,
            Design {
                n: 2,
                terms: &[Term(0, 0, 1), Term(1, 1, 1)],
            },
            &[(0, 1), (137, 1), (153, 30), (1088, 1)],
            256,
        )?;
        // (0, 5): (0, 25), (1, 0)
        frames_to::<Tone>(
            &rt,
            Design {
                n: 2,
                terms: &[Term(1, 0, 5)],
            },
            &[(17, 25), (136, 1), (1088, 1)],
            0,
        )
    }

    #[test]
    fn worked_designs_over_tones(rt: HostRuntime) -> Result<(), Fail> {
        // (s, s + 1): (30, 1), (30 + 30s, s)
        frames_to::<Tone>(
            &rt,
            Design {
                n: 2,
                terms: &[Term(0, 1, 1), Term(1, 0, 1), Term(1, 1, 1)],
            },
            &[(0, 30), (17, 1), (136, 30), (137, 30), (154, 1), (1088, 1)],
            256,
        )?;
        // (s^2, s^2 + s): the same columns, divisor s
        frames_to::<Tone>(
            &rt,
            Design {
                n: 2,
                terms: &[Term(0, 2, 1), Term(1, 1, 1), Term(1, 2, 1)],
            },
            &[(0, 30), (17, 1), (136, 30), (137, 30), (154, 1), (1089, 1)],
            256,
        )?;
        // (s^2, s + 1): (1, 1 + 30s), (30 + 30s, s^2)
        frames_to::<Tone>(
            &rt,
            Design {
                n: 2,
                terms: &[Term(0, 2, 1), Term(1, 0, 1), Term(1, 1, 1)],
            },
            &[
                (0, 1),
                (17, 1),
                (18, 30),
                (136, 30),
                (137, 30),
                (155, 1),
                (1088, 1),
            ],
            513,
        )
    }

    #[test]
    fn worked_designs_of_three_and_of_bytes(rt: HostRuntime) -> Result<(), Fail> {
        // (1, s, s^2): (1, 0, 0), (s, 30, 0), (0, s, 30)
        frames_to::<Tone>(
            &rt,
            Design {
                n: 3,
                terms: &[Term(0, 0, 1), Term(1, 1, 1), Term(2, 2, 1)],
            },
            &[(0, 1), (137, 1), (153, 30), (290, 1), (306, 30), (1088, 1)],
            65792,
        )?;
        // (1, 0, s^3): (1, 0, 0), (0, 1, 0), (s^3, 0, 30)
        frames_to::<Tone>(
            &rt,
            Design {
                n: 3,
                terms: &[Term(0, 0, 1), Term(2, 3, 1)],
            },
            &[(0, 1), (153, 1), (275, 1), (306, 30), (1088, 1)],
            196608,
        )?;
        // bytes (16, s): (255, 0), (s, 16)
        frames_to::<Byte>(
            &rt,
            Design {
                n: 2,
                terms: &[Term(0, 0, 16), Term(1, 1, 1)],
            },
            &[(0, 255), (137, 1), (153, 16), (1088, 1)],
            256,
        )
    }

    #[test]
    fn designs_at_the_limits(rt: HostRuntime) -> Result<(), Fail> {
        // (s^16, s^16): the divisor has degree 16, and the divided row degree 0
        frames_to::<Tone>(
            &rt,
            Design {
                n: 2,
                terms: &[Term(0, 16, 1), Term(1, 16, 1)],
            },
            &[(0, 1), (136, 30), (153, 1), (1104, 1)],
            0,
        )?;
        // (s^16, 0, 0, 0, 0, 0, 0, 1): the last check column is (30, 0, .., 0, s^16)
        let expected = [
            (119, 1),
            (153, 1),
            (306, 1),
            (459, 1),
            (612, 1),
            (765, 1),
            (918, 1),
            (952, 30),
            (1087, 1),
            (1088, 1),
        ];
        frames_to::<Tone>(
            &rt,
            Design {
                n: MAX_COUNT,
                terms: &[Term(0, 16, 1), Term(7, 0, 1)],
            },
            &expected,
            1152921504606846976,
        )
    }

    #[test]
    fn the_first_column_is_the_least(rt: HostRuntime) -> Result<(), Fail> {
        let mut tables = Tables::full_of(rt.alloc(), Tone::T0)?;
        // For (s^2, s + 1, 1) Euclid's chain would give (1, 1 + 30s, 0).
        let design = Design {
            n: 3,
            terms: &[Term(0, 2, 1), Term(1, 0, 1), Term(1, 1, 1), Term(2, 0, 1)],
        };
        let draft = design.enter(&mut tables.generators)?;
        assert!(rt;
            draft
                .frame(&tables.generators, &mut tables.frame, &mut tables.work)
                .is_ok()
        );
        assert_eq!(rt; code_at(&tables.frame, 34), Some(1));
        let column = tables.frame.get(..GENERATORS).unwrap_or(&[]);
        assert_eq!(rt; sum_of_codes(column), 1);
        Ok(())
    }

    // The number of the refusal, which docs/refusals.md promises, if there is one.
    fn number<T: Drop>(r: Result<T, DesignFault>) -> Option<u8> {
        Some(r.err()?.number())
    }

    // The refusal of a frame of 2 generators that are all zero, with tables of these lengths.
    // It stands apart from its like in offer_tests, which lends one table more and compares the work table too.
    fn refused(
        rt: &(impl Abort + AllocGlobal),
        generators: usize,
        frame: usize,
        work: usize,
    ) -> Result<DesignFault, Fail> {
        let heap = rt.alloc();
        let draft = Draft::begin(2, &mut [Tone::T0; GENERATORS])?;
        let table = vec![in heap; Tone::T0; generators]?;
        let mut frame = vec![in heap; Tone::T7; frame]?;
        let mut work = vec![in heap; Tone::T7; work]?;
        let Err(back) = draft.frame(&table, &mut frame, &mut work) else {
            return Err(Fail::new("granted"));
        };
        assert_eq!(rt; back.design.count(), 2);
        assert_eq!(rt; code_at(&frame, 0), Some(7));
        // The work table is zero after the refusal by 6, and untouched after the refusal by 1.
        let left = if back.fault.number() == 6 { 0 } else { 7 };
        assert!(rt; work.iter().all(|x| x.code() == left));
        Ok(back.fault)
    }

    #[test]
    fn refusals(rt: HostRuntime) -> Result<(), Fail> {
        // The last of each is the refusal's number, which docs/refusals.md promises.
        for (generators, frame, work, number) in [
            (136, 1105, 4521, 6),
            (135, 1105, 4521, 1),
            (137, 1105, 4521, 1),
            (136, 1104, 4521, 1),
            (136, 1106, 4521, 1),
            (136, 1105, 4520, 1),
            (136, 1105, 4522, 1),
        ] {
            assert_eq!(rt; refused(&rt, generators, frame, work)?.number(), number);
        }
        Ok(())
    }

    // The framed design (1, s), and its frame table.
    fn framed(heap: Global) -> Result<(Framed, Vec<Tone>), Fail> {
        let mut tables = Tables::full_of(heap, Tone::T0)?;
        let design = Design {
            n: 2,
            terms: &[Term(0, 0, 1), Term(1, 1, 1)],
        };
        let draft = design.enter(&mut tables.generators)?;
        match draft.frame(&tables.generators, &mut tables.frame, &mut tables.work) {
            Ok(framed) => Ok((framed, tables.frame)),
            Err(_) => Err(Fail::new("refused")),
        }
    }

    #[test]
    fn columns_are_parts_of_the_frame(rt: HostRuntime) -> Result<(), Fail> {
        let (framed, frame) = framed(rt.alloc())?;
        // The lengths are asked before the numbers.
        for long in [1104, 1106] {
            let table = vec![in rt.alloc(); Tone::T7; long]?;
            assert_eq!(rt; number(framed.column(&table, 2, 2)), Some(1));
        }
        assert_eq!(rt; number(framed.column(&frame, 2, 0)), Some(3));
        assert_eq!(rt; number(framed.column(&frame, 0, 2)), Some(3));
        // Component 1 of column 1 is 30.
        let component = framed.column(&frame, 1, 1)?;
        assert_eq!(rt; component.len(), 17);
        assert!(rt; holds(component, &[(0, 30)]));
        Ok(())
    }

    #[test]
    fn reopening_clears_the_frame(rt: HostRuntime) -> Result<(), Fail> {
        let (mut framed, mut frame) = framed(rt.alloc())?;
        for long in [1104, 1106] {
            let mut table = vec![in rt.alloc(); Tone::T7; long]?;
            let Err(back) = framed.reopen(&mut table) else {
                return Err(Fail::new("granted"));
            };
            assert_eq!(rt; back.fault.number(), 1);
            assert!(rt; table.iter().all(|x| x.code() == 7));
            framed = back.design;
        }
        // What was handed back is (1, s) still: of degree 1, with columns of degree 0 and 1.
        assert_eq!(rt; framed.generators(), 2);
        assert_eq!(rt; framed.degree(), 1);
        assert_eq!(rt; framed.columns(), 256);
        assert_eq!(rt;
            framed
                .reopen(&mut frame)
                .map_err(|_| ())
                .map(|draft| draft.count()),
            Ok(2)
        );
        assert_eq!(rt; sum_of_codes(&frame), 0);
        Ok(())
    }
}
