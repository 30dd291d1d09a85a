// A design's card: written, read back, and read damaged.
ghost use Rattle.std.specs.Prelude.{◌≡◌, IfOk};
ghost use Rattle.std.specs.List.{slice_set};
ghost use Rattle.cards.specs.RoundTrip.{ReadsBack};
ghost use Rattle.walkthrough.specs.declared.card.TheConstants.{DAMAGED};

use anyhow::anyhow;
use cards::read::read_card;
use cards::sizes::CARD;
use cards::write::write_card;
use design::draft::Draft;
use fields::fault::RefusalText;
use fields::field::Field;
use std::alloc::Global;
use std::fmt;
use tables::sizes::{GENERATORS, WIDTH};
use texts::card::CardText;
use texts::polynomial::RowText;
use tones::Tone;

// The byte of a card that is damaged: in the card of DESIGN, the power of its third record.
const DAMAGED: usize = 13;

// What comes of reading a card.
#[derive(Drop)]
struct ReadingText<'a> {
    card: &'a [u8],
}

impl fmt::Display for ReadingText<'_> {
    fn fmt<W: fmt::Write>(&self, f: &mut fmt::Formatter<W>) -> fmt::Result {
        let mut table = [Tone::T0; GENERATORS];
        match read_card(self.card, &mut table) {
            Ok(draft) => {
                let row = RowText {
                    row: &table[..WIDTH * draft.count()],
                };
                writeln!(f, "  granted: the generators are {row}")
            }
            Err(fault) => writeln!(f, "  {}", RefusalText { fault: &fault }),
        }
    }
}

// A design's card, and the same with its byte DAMAGED set to 0.
#[derive(Drop)]
pub struct Kept {
    pub card: Vec<u8>,
    pub damaged: Vec<u8>,
}

impl Kept {
    // The card of a design.
    pub fn of(heap: Global, draft: &Draft, table: &[Tone]) -> anyhow::Result<Kept>
        ensures card { IfOk result (λ kept. ReadsBack ⟦<Tone as Field>⟧.ops ⟦<Tone as Field>⟧.member ⟦<Tone as Field>⟧.number ⟦<Tone as Field>⟧.order ⟦<Tone as Field>⟧.tag draft.now.n table.now kept.card.items) }
        ensures damaged { IfOk result (λ kept. kept.damaged.items ≡ slice_set kept.card.items DAMAGED 0) }
    {
        let mut buffer = [0u8; CARD];
        let Ok(length) = write_card(draft, table, &mut buffer) else {
            return Err(anyhow!("the card was refused"));
        };
        let card = Vec::from_slice(heap, &buffer[..length])?;
        let mut damaged = card.clone()?;
        if let Some(byte) = damaged.get_mut(DAMAGED) {
            *byte = 0;
        }
        Ok(Kept { card, damaged })
    }
}

impl fmt::Display for Kept {
    fn fmt<W: fmt::Write>(&self, f: &mut fmt::Formatter<W>) -> fmt::Result {
        let length = self.card.len();
        writeln!(f, "The design's card has {length} bytes:")?;
        write!(f, "{}", CardText { bytes: &self.card })?;
        writeln!(f, "The card is read back:")?;
        write!(f, "{}", ReadingText { card: &self.card })?;
        writeln!(
            f,
            "Byte {DAMAGED} is damaged, from 1 to 0, and the card is read again:"
        )?;
        write!(
            f,
            "{}",
            ReadingText {
                card: &self.damaged
            }
        )
    }
}
