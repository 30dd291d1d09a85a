// Tests of reading cards: each refusal on its own with its layer and place, and cards that pass.
#![tactic(auto)]

#[cfg(test)]
mod tests {
    use cards::read::read_card;
    use cards::sizes::CARD;
    use cards::write::write_card;
    use design::draft::Draft;
    use design::fault::DesignFault;
    use fields::fault::Refusal;
    use fields::field::Field;
    use std::test::Fail;
    use tables::sizes::{GENERATORS, MAX_COUNT, WIDTH};
    use tones::Tone;

    // Number, layer and place of the refusal, which docs/refusals.md promises, if there is one.
    fn refused_into(card: &[u8], table: &mut [Tone]) -> Option<(u8, u8, usize)> {
        let fault = read_card(card, table).err()?;
        Some((fault.number(), fault.layer().number(), fault.place()))
    }

    // The same with a table of the right length.
    fn refusal(card: &[u8]) -> Option<(u8, u8, usize)> {
        refused_into(card, &mut [Tone::T7; GENERATORS])
    }

    #[test]
    fn lengths_kinds_and_counts(rt: HostRuntime) {
        assert_eq!(rt; refusal(&[]), Some((13, 2, 0)));
        assert_eq!(rt; refusal(&[1, 2]), Some((13, 2, 0)));
        assert_eq!(rt; refusal(&[1, 2, 1, 1, 0, 3, 1, 0]), Some((13, 2, 0)));
        assert_eq!(rt; refusal(&[1, 2, 1, 1, 0, 3, 1, 0, 0, 0]), Some((13, 2, 0)));
        assert_eq!(rt; refusal(&[2, 2, 0, 0, 0]), Some((14, 2, 0)));
        assert_eq!(rt; refusal(&[1, 1, 0, 0]), Some((2, 2, 0)));
        assert_eq!(rt;
            refusal(&[1, 9, 0, 0, 0, 0, 0, 0, 0, 0, 0, 0]),
            Some((2, 2, 0))
        );
    }

    #[test]
    fn faults_in_the_walk(rt: HostRuntime) {
        assert_eq!(rt; refusal(&[1, 2, 0, 1, 0]), Some((15, 2, 3)));
        assert_eq!(rt; refusal(&[1, 2, 0, 0, 1]), Some((15, 2, 4)));
        assert_eq!(rt; refusal(&[1, 2, 1, 1, 0, 17, 1, 0, 0]), Some((4, 2, 5)));
        assert_eq!(rt; refusal(&[1, 2, 1, 1, 0, 3, 31, 0, 0]), Some((5, 1, 6)));
        assert_eq!(rt; refusal(&[1, 2, 1, 1, 0, 3, 0, 1, 0]), Some((5, 1, 6)));
        assert_eq!(rt; refusal(&[1, 2, 1, 1, 0, 3, 0, 0, 0]), Some((17, 2, 6)));
        assert_eq!(rt; refusal(&[1, 2, 1, 1, 0, 3, 1, 0, 2]), Some((15, 2, 8)));
        // Two records of one power in a chain, and a chain that would run in a circle.
        assert_eq!(rt;
            refusal(&[1, 2, 2, 1, 0, 3, 1, 0, 2, 3, 1, 0, 0]),
            Some((16, 2, 9))
        );
        assert_eq!(rt; refusal(&[1, 2, 1, 1, 0, 3, 1, 0, 1]), Some((16, 2, 5)));
        // Two records of one chain, whose second power falls, and stays.
        assert_eq!(rt;
            refusal(&[1, 2, 2, 1, 0, 3, 1, 0, 2, 2, 1, 0, 0]),
            Some((16, 2, 9))
        );
        assert_eq!(rt;
            refusal(&[1, 2, 2, 1, 0, 3, 1, 0, 2, 3, 1, 0, 0]),
            Some((16, 2, 9))
        );
    }

    #[test]
    fn cards_that_pass(rt: HostRuntime) {
        // No records.
        assert_eq!(rt; refusal(&[1, 2, 0, 0, 0]), None);
        // Two records of one chain, with rising powers.
        assert_eq!(rt; refusal(&[1, 2, 2, 1, 0, 3, 1, 0, 2, 4, 1, 0, 0]), None);
        // Two chains share a record.
        assert_eq!(rt; refusal(&[1, 2, 1, 1, 1, 3, 5, 0, 0]), None);
        // A record that no chain reaches is not read.
        assert_eq!(rt; refusal(&[1, 2, 2, 1, 0, 3, 1, 0, 0, 99, 99, 99, 99]), None);
    }

    #[test]
    fn tables_hold_what_they_should(rt: HostRuntime) {
        let mut table = [Tone::T7; GENERATORS];
        assert!(rt; read_card(&[1, 2, 1, 1, 0, 3, 31, 0, 0], &mut table).is_err());
        assert_eq!(rt; table[3].code(), 7);
        assert!(rt; read_card(&[1, 2, 1, 1, 1, 3, 5, 0, 0], &mut table).is_ok());
        assert_eq!(rt; table[3].code(), 5);
        assert_eq!(rt; table[20].code(), 5);
        assert_eq!(rt; table[4].code(), 0);
        assert_eq!(rt; table[135].code(), 0);
        // Asked before the card is: a table has not its exact length.
        assert_eq!(rt; refused_into(&[], &mut [Tone::T7; 135]), Some((1, 3, 0)));
        assert_eq!(rt; refused_into(&[], &mut [Tone::T7; 137]), Some((1, 3, 0)));
    }

    // The card of (s^2, 1 + s).
    #[test]
    fn the_worked_card(rt: HostRuntime) {
        let mut table = [Tone::T7; GENERATORS];
        let card = [1, 2, 3, 1, 2, 2, 1, 0, 0, 0, 1, 0, 3, 1, 1, 0, 0];
        assert_eq!(rt;
            read_card(&card, &mut table).map(|draft| draft.count()),
            Ok(2)
        );
        for (place, x) in table.iter().enumerate() {
            let one = [2, 17, 18].contains(&place);
            assert_eq!(rt; x.code(), u16::from(one));
        }
    }

    // Puts the code 30 at each power of each generator.
    fn fill(draft: &Draft, table: &mut [Tone]) -> Result<(), DesignFault> {
        (0..MAX_COUNT).try_for_each(|i| (0..WIDTH).try_for_each(|power| draft.put(
            table, i, power, 30,
        )))
    }

    #[test]
    fn the_longest_card(rt: HostRuntime) -> Result<(), Fail> {
        let mut table = [Tone::T0; GENERATORS];
        let mut back = [Tone::T0; GENERATORS];
        let mut card = [0u8; CARD];
        let draft = Draft::begin(MAX_COUNT, &mut table)?;
        fill(&draft, &mut table)?;
        assert_eq!(rt; write_card(&draft, &table, &mut card)?, 555);
        assert!(rt; read_card(&card, &mut back).is_ok());
        assert!(rt; back.iter().all(|x| x.code() == 30));
        Ok(())
    }
}
