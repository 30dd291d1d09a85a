// Tests of the calls on designs and cards, at their limits.
#![tactic(auto)]

#[cfg(test)]
mod tests {
    use cards::sizes::CARD;
    use cards::write::write_card;
    use design::draft::Draft;
    use design::fault::DesignFault;
    use fields::fault::Refusal;
    use fields::field::Field;
    use std::test::Fail;
    use tables::sizes::GENERATORS;
    use tones::Tone;

    // The number of the refusal, which docs/refusals.md promises, if there is one.
    fn refusal<T: Drop>(r: Result<T, DesignFault>) -> Option<u8> {
        Some(r.err()?.number())
    }

    #[test]
    fn begin_takes_two_to_eight_generators(rt: HostRuntime) {
        let mut table = [Tone::T5; GENERATORS];
        assert_eq!(rt; refusal(Draft::begin(1, &mut table)), Some(2));
        assert_eq!(rt; refusal(Draft::begin(9, &mut table)), Some(2));
        assert_eq!(rt; refusal(Draft::begin(2, &mut table)), None);
        assert!(rt; table.iter().all(|x| x.code() == 0));
        assert_eq!(rt; refusal(Draft::begin(8, &mut table)), None);
    }

    #[test]
    fn put_keeps_its_limits(rt: HostRuntime) -> Result<(), Fail> {
        let mut table = [Tone::T0; GENERATORS];
        let draft = Draft::begin(8, &mut table)?;
        assert_eq!(rt; refusal(draft.put(&mut table, 7, 16, 30)), None);
        assert_eq!(rt; refusal(draft.put(&mut table, 8, 16, 30)), Some(3));
        assert_eq!(rt; refusal(draft.put(&mut table, 7, 17, 30)), Some(4));
        assert_eq!(rt; refusal(draft.put(&mut table, 7, 16, 31)), Some(5));
        let two = Draft::begin(2, &mut table)?;
        assert_eq!(rt; refusal(two.put(&mut table, 1, 0, 1)), None);
        assert_eq!(rt; refusal(two.put(&mut table, 2, 0, 1)), Some(3));
        Ok(())
    }

    #[test]
    fn tables_have_their_exact_length(rt: HostRuntime) -> Result<(), Fail> {
        // The numbers that are promised, one less and one more.
        let mut short = [Tone::T0; 135];
        let mut long = [Tone::T0; 137];
        let mut table = [Tone::T0; GENERATORS];
        let mut small = [0u8; 554];
        let mut large = [0u8; 556];
        assert_eq!(rt; refusal(Draft::begin(2, &mut short)), Some(1));
        assert_eq!(rt; refusal(Draft::begin(2, &mut long)), Some(1));
        let draft = Draft::begin(2, &mut table)?;
        assert_eq!(rt; refusal(draft.put(&mut short, 0, 0, 1)), Some(1));
        assert_eq!(rt; refusal(draft.put(&mut long, 0, 0, 1)), Some(1));
        assert_eq!(rt;
            refusal(write_card(&draft, &short, &mut [0u8; CARD])),
            Some(1)
        );
        assert_eq!(rt;
            refusal(write_card(&draft, &long, &mut [0u8; CARD])),
            Some(1)
        );
        assert_eq!(rt; refusal(write_card(&draft, &table, &mut small)), Some(1));
        assert_eq!(rt; refusal(write_card(&draft, &table, &mut large)), Some(1));
        Ok(())
    }

    #[test]
    fn a_card_byte_by_byte(rt: HostRuntime) -> Result<(), Fail> {
        let mut table = [Tone::T0; GENERATORS];
        let mut card = [255u8; CARD];
        let draft = Draft::begin(2, &mut table)?;
        draft.put(&mut table, 0, 2, 1)?;
        draft.put(&mut table, 1, 0, 1)?;
        draft.put(&mut table, 1, 1, 1)?;
        assert_eq!(rt; write_card(&draft, &table, &mut card)?, 17);
        let expected = [1u8, 2, 3, 1, 2, 2, 1, 0, 0, 0, 1, 0, 3, 1, 1, 0, 0];
        assert!(rt; card[..17] == expected[..]);
        assert!(rt; card[17..].iter().all(|byte| *byte == 0));
        Ok(())
    }
}
