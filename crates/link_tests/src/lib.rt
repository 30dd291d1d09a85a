// Tests of the link: limits, refusals, and messages that are sent, hit and brought home.
#![tactic(auto)]

#[cfg(test)]
mod support;

#[cfg(test)]
mod tests {
    use design::framed::Framed;
    use fields::fault::Refusal;
    use fields::field::Field;
    use link::calls::{check, encode, invert};
    use link::fault::LinkFault;
    use nibbles::Nibble;
    use random::Random;
    use std::process::Abort;
    use std::test::Fail;
    use test_support::designs::{Design, Tables, Term};
    use tones::Tone;
    use towers::{Byte, TonePair};
    use trial_support::blocks::differences;

    // The generators (s^2, s + 1).
    const APART: Design<'static> = Design {
        n: 2,
        terms: &[Term(0, 2, 1), Term(1, 0, 1), Term(1, 1, 1)],
    };

    // The generators (s^2, s + s^2).
    const SHARED: Design<'static> = Design {
        n: 2,
        terms: &[Term(0, 2, 1), Term(1, 1, 1), Term(1, 2, 1)],
    };

    // A framed design with its tables.
    #[derive(Drop)]
    struct Station<F: Field> {
        framed: Framed,
        tables: Tables<F>,
    }

    impl<F: Field + Clone> Station<F> {
        fn open(rt: &impl AllocGlobal, design: Design<'_>) -> Result<Station<F>, Fail> {
            let mut tables = Tables::full_of(rt.alloc(), F::zero())?;
            let draft = design.enter(&mut tables.generators)?;
            match draft.frame(&tables.generators, &mut tables.frame, &mut tables.work) {
                Ok(framed) => Ok(Station { framed, tables }),
                Err(_) => Err(Fail::new("refused")),
            }
        }

        fn encode(&self, message: &[F], block: &mut [F]) -> Result<(), LinkFault> {
            encode(&self.framed, &self.tables.generators, message, block)
        }

        fn check(&self, block: &[F]) -> Result<bool, LinkFault> {
            check(&self.framed, &self.tables.frame, block)
        }

        fn invert(&self, block: &[F], message: &mut [F]) -> Result<(), LinkFault> {
            invert(&self.framed, &self.tables.frame, block, message)
        }
    }

    // What encode answers for a message and a block of so many symbols, a refusal by the number that docs/refusals.md promises. A refusal
    // leaves the block as it was.
    fn encodes(
        rt: &(impl Abort + AllocGlobal),
        station: &Station<Tone>,
        cases: &[(usize, usize, Result<(), u8>)],
    ) -> Result<(), Fail> {
        for (symbols, long, answer) in cases {
            let message = vec![in rt.alloc(); Tone::T4; *symbols]?;
            let mut block = vec![in rt.alloc(); Tone::T0; *long]?;
            let answered = station.encode(&message, &mut block);
            assert_eq!(rt; answered.map_err(|fault| fault.number()), *answer);
            assert!(rt; answer.is_ok() || block.iter().all(|x| x.code() == 0));
        }
        Ok(())
    }

    // What invert answers for a block and a message of so many symbols, a refusal by the number that docs/refusals.md promises. A refusal
    // leaves the message as it was.
    fn inverts(
        rt: &(impl Abort + AllocGlobal),
        station: &Station<Tone>,
        cases: &[(usize, usize, Result<(), u8>)],
    ) -> Result<(), Fail> {
        for (symbols, long, answer) in cases {
            let block = vec![in rt.alloc(); Tone::T0; *long]?;
            let mut message = vec![in rt.alloc(); Tone::T4; *symbols]?;
            let answered = station.invert(&block, &mut message);
            assert_eq!(rt; answered.map_err(|fault| fault.number()), *answer);
            // Of a block of zeros comes a message of zeros.
            let left = if answer.is_ok() { 0 } else { 4 };
            assert!(rt; message.iter().all(|x| x.code() == left));
        }
        Ok(())
    }

    // What check answers for a block of so many zeros, a refusal by the number that docs/refusals.md promises.
    fn checks(
        rt: &(impl Abort + AllocGlobal),
        station: &Station<Tone>,
        cases: &[(usize, Result<bool, u8>)],
    ) -> Result<(), Fail> {
        for (long, answer) in cases {
            let block = vec![in rt.alloc(); Tone::T0; *long]?;
            let answered = station.check(&block);
            assert_eq!(rt; answered.map_err(|fault| fault.number()), *answer);
        }
        Ok(())
    }

    #[test]
    fn lengths_and_divisors(rt: HostRuntime) -> Result<(), Fail> {
        let tones = Station::open(&rt, APART)?;
        let cases = [
            (1, 6, Ok(())),
            (4096, 8196, Ok(())),
            (0, 4, Err(12)),
            (4097, 8198, Err(12)),
            (1, 7, Err(12)),
        ];
        encodes(&rt, &tones, &cases)?;
        inverts(&rt, &tones, &cases)?;
        checks(
            &rt,
            &tones,
            &[
                (0, Err(12)),
                (4, Err(12)),
                (7, Err(12)),
                (6, Ok(true)),
                (8196, Ok(true)),
                (8198, Err(12)),
            ],
        )?;
        let shared = Station::open(&rt, SHARED)?;
        encodes(&rt, &shared, &[(1, 4, Err(11))])?;
        inverts(&rt, &shared, &[(1, 4, Err(11))])?;
        checks(&rt, &shared, &[(4, Err(11))])
    }

    // What encode refuses with a table of generators that is short, and check with a block of no length: number, layer and place.
    #[test]
    fn refusals(rt: HostRuntime) -> Result<(), Fail> {
        let station = Station::<Tone>::open(&rt, APART)?;
        let short = [Tone::T0; 135];
        let Err(fault) = encode(&station.framed, &short, &[Tone::T4], &mut [Tone::T0; 6]) else {
            return Err(Fail::new("encoded"));
        };
        assert_eq!(rt; fault.number(), 1);
        assert_eq!(rt; fault.layer().number(), 3);
        assert_eq!(rt; fault.place(), 0);
        let Err(fault) = station.check(&[]) else {
            return Err(Fail::new("checked"));
        };
        assert_eq!(rt; fault.number(), 12);
        assert_eq!(rt; fault.layer().number(), 4);
        assert_eq!(rt; fault.place(), 0);
        Ok(())
    }

    // The block of a message of one symbol 1, with one more of its symbols raised to 1, is clean no more.
    fn tells(
        rt: &(impl Abort + AllocGlobal),
        design: Design<'_>,
        block: &mut [Tone],
        place: usize,
    ) -> Result<(), Fail> {
        let station = Station::open(rt, design)?;
        assert_eq!(rt; station.encode(&[Tone::T1], block), Ok(()));
        assert_eq!(rt; station.check(block), Ok(true));
        let Some(x) = block.get_mut(place) else {
            return Err(Fail::new("no such place"));
        };
        *x = x.add(Tone::T1);
        assert_eq!(rt; station.check(block), Ok(false));
        Ok(())
    }

    // The check columns of (1, s, s^2) are (s, 30, 0) and (0, s, 30): a hit of the first stream is told by the first alone, and one of the
    // third by the second.
    #[test]
    fn hits_that_one_column_tells(rt: HostRuntime) -> Result<(), Fail> {
        let design = Design {
            n: 3,
            terms: &[Term(0, 0, 1), Term(1, 1, 1), Term(2, 2, 1)],
        };
        tells(&rt, design, &mut [Tone::T0; 9], 0)?;
        tells(&rt, design, &mut [Tone::T0; 9], 2)
    }

    // The check column of (1, s) is (s, 30): a hit of the second stream at time 0 is told by the sum at time 0 alone. That of (s^16, 1) is
    // (30, s^16): a hit of the second stream at the last time, 16, is told by the sum at time 32 alone.
    #[test]
    fn hits_that_one_time_tells(rt: HostRuntime) -> Result<(), Fail> {
        let first = Design {
            n: 2,
            terms: &[Term(0, 0, 1), Term(1, 1, 1)],
        };
        let last = Design {
            n: 2,
            terms: &[Term(0, 16, 1), Term(1, 0, 1)],
        };
        tells(&rt, first, &mut [Tone::T0; 4], 1)?;
        tells(&rt, last, &mut [Tone::T0; 34], 33)
    }

    // A message on its way: its block, and what came home.
    #[derive(Drop)]
    struct Transit<F: Field> {
        station: Station<F>,
        message: Vec<F>,
        block: Vec<F>,
        back: Vec<F>,
    }

    impl<F: Field + Clone> Transit<F> {
        // How many of the symbols that came home are not those of the message.
        fn spoiled(&self) -> usize {
            differences(&self.message, &self.back)
        }

        // The block with the symbol at a place changed by so much is unclean, and its message differs in at most two symbols.
        fn hit(&mut self, rt: &impl Abort, place: usize, change: F) -> Result<(), Fail> {
            let Some(symbol) = self.block.get(place).copied() else {
                return Err(Fail::new("no such place"));
            };
            self.write(place, symbol.add(change));
            assert_eq!(rt; self.station.check(&self.block), Ok(false));
            assert_eq!(rt; self.station.invert(&self.block, &mut self.back), Ok(()));
            assert!(rt; self.spoiled() <= 2);
            self.write(place, symbol);
            Ok(())
        }

        // Changes each symbol of the block in turn. By place, since each hit changes the block.
        fn hit_each(&mut self, rt: &impl Abort, change: F) -> Result<(), Fail> {
            for place in 0..self.block.len() {
                self.hit(rt, place, change)?;
            }
            Ok(())
        }

        // Puts a symbol in the block.
        fn write(&mut self, place: usize, symbol: F) {
            if let Some(x) = self.block.get_mut(place) {
                *x = symbol;
            }
        }
    }

    // Sends a message, which comes home.
    fn carries<F: Field + Clone>(
        rt: &(impl Abort + AllocGlobal),
        message: Vec<F>,
    ) -> Result<Transit<F>, Fail> {
        let symbols = message.len();
        let long = symbols.saturating_add(2).saturating_mul(2);
        let mut transit = Transit {
            station: Station::open(rt, APART)?,
            message,
            block: vec![in rt.alloc(); F::zero(); long]?,
            back: vec![in rt.alloc(); F::zero(); symbols]?,
        };
        let station = &transit.station;
        assert_eq!(rt;
            station.encode(&transit.message, &mut transit.block),
            Ok(())
        );
        assert_eq!(rt; station.check(&transit.block), Ok(true));
        assert_eq!(rt; station.invert(&transit.block, &mut transit.back), Ok(()));
        assert_eq!(rt; transit.spoiled(), 0);
        Ok(transit)
    }

    // Sends the message of five codes, and raises each symbol of its block by one.
    fn sends<F: Field + Clone>(rt: &(impl Abort + AllocGlobal), codes: &[u32]) -> Result<(), Fail> {
        let message = codes
            .iter()
            .map(|code| -> Result<F, Fail> { Ok(F::element(*code)?) })
            .try_collect(rt.alloc())?;
        carries(rt, message)?.hit_each(rt, F::one())
    }

    // Sends five symbols whose codes look random, and raises each symbol of their block by one.
    fn sends_random<F: Field + Clone>(
        rt: &(impl Abort + AllocGlobal),
        seed: u32,
    ) -> Result<(), Fail> {
        let mut message = vec![in rt.alloc(); F::zero(); 5]?;
        Random::seeded(seed).fill(&mut message);
        carries(rt, message)?.hit_each(rt, F::one())
    }

    // Sends one symbol, and changes each symbol of its block to every other member.
    fn sends_one<F: Field + Clone>(rt: &(impl Abort + AllocGlobal)) -> Result<(), Fail> {
        let mut transit = carries(rt, vec![in rt.alloc(); F::one(); 1]?)?;
        for code in 1..F::size() {
            transit.hit_each(rt, F::element(code)?)?;
        }
        Ok(())
    }

    #[test]
    fn every_single_change_is_told(rt: HostRuntime) -> Result<(), Fail> {
        sends_one::<Tone>(&rt)?;
        sends_one::<Nibble>(&rt)?;
        sends_one::<Byte>(&rt)
    }

    #[test]
    fn messages_come_home(rt: HostRuntime) -> Result<(), Fail> {
        sends::<Tone>(&rt, &[3, 1, 30, 0, 17])?;
        sends::<Nibble>(&rt, &[9, 0, 15, 2, 8])?;
        sends::<Byte>(&rt, &[255, 16, 1, 0, 77])?;
        sends::<TonePair>(&rt, &[960, 31, 0, 480, 2])
    }

    #[test]
    fn random_messages_come_home(rt: HostRuntime) -> Result<(), Fail> {
        for seed in 0..50u32 {
            sends_random::<Tone>(&rt, seed)?;
            sends_random::<Nibble>(&rt, seed)?;
            sends_random::<Byte>(&rt, seed)?;
            sends_random::<TonePair>(&rt, seed)?;
        }
        Ok(())
    }
}
