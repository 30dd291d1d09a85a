// The trials: what only a run can show. Prints what was tried, and last how much of it differed.
#![tactic(auto)]

mod blocks;
mod framed;
mod keeping;
mod limits;
mod offers;
mod runs;
mod station;
mod tally;
mod worked;

use blocks::Sending;
use fields::field::Field;
use framed::{frame_agrees, refusal_agrees, reopening_agrees};
use keeping::{try_card, writing_agrees};
use limits::try_limits;
use nibbles::Nibble;
use offers::try_offers;
use runs::Listed;
use station::Tables;
use std::alloc::{AllocError, Global};
use tally::Tally;
use tones::Tone;
use towers::{Byte, TonePair};
use trial_support::cards::card_of;
use trial_support::draws::Draws;
use trial_support::rows::{Row, Shape, draw_row};
use worked::try_worked;

// What is counted over one field.
#[derive(Clone, Copy, Default)]
struct Counts {
    framed: Tally,
    empty: Tally,
    messages: Tally,
    changes: Tally,
    granted: Tally,
    refused: Tally,
    written: Tally,
    read: Tally,
    runs: Tally,
}

impl Counts {
    // What was tried, in words, with its tally.
    fn lines(&self) -> [(&'static str, Tally); 9] {
        [
            (
                "framed; frame, numbers and products by the second solver",
                self.framed,
            ),
            ("all zero, refused", self.empty),
            (
                "messages encoded, found clean and brought home",
                self.messages,
            ),
            (
                "single changes of a block, told and within their reach",
                self.changes,
            ),
            ("offered frames granted, as judged apart", self.granted),
            ("offered frames refused, as judged apart", self.refused),
            ("cards written, byte for byte", self.written),
            ("cards read, whole, cut and damaged", self.read),
            (
                "rows whose calls, performed as lists, were answered as single calls",
                self.runs,
            ),
        ]
    }
}

// The trials over one field: what they draw from, the tables that the calls are lent, and what is counted.
#[derive(Drop)]
struct Trials<F: Field + Drop> {
    heap: Global,
    draws: Draws,
    // What the messages sent by lists of calls are drawn from.
    messages: Draws,
    tables: Tables<F>,
    counts: Counts,
}

impl<F: Field + Clone + Drop> Trials<F> {
    fn begin(heap: Global, seed: u64) -> Result<Trials<F>, AllocError> {
        Ok(Trials {
            heap,
            draws: Draws::from_seed(seed),
            messages: Draws::from_seed(seed),
            tables: Tables::full(heap)?,
            counts: Counts::default(),
        })
    }

    // Frames a row that is not all zero, and sends a message where its divisor is 1.
    fn try_frame(&mut self, row: &Row) -> Result<(), AllocError> {
        let Some(framed) = self.tables.frame(row) else {
            self.counts.framed.note(false);
            return Ok(());
        };
        let agrees = frame_agrees(row, &framed, self.tables.frame.as_slice());
        if framed.divisor_degree() == 0 {
            let mut sending = Sending::draw(
                self.heap,
                &mut self.draws,
                row,
                &framed,
                &self.tables,
            )?;
            self.counts.messages.note(sending.agrees());
            self.counts
                .changes
                .add(sending.change_symbols(&mut self.draws));
        }
        let reopened = reopening_agrees(framed, self.tables.frame.as_mut_slice());
        self.counts.framed.note(agrees && reopened);
        Ok(())
    }

    // Offers frames for a row that is not all zero.
    fn try_offers(&mut self, row: &Row) -> Result<(), AllocError> {
        let offers = try_offers(self.heap, &mut self.draws, row, &mut self.tables)?;
        self.counts.granted.add(offers.granted);
        self.counts.refused.add(offers.refused);
        Ok(())
    }

    // Writes the card of a row, and reads it whole and damaged.
    fn try_keeping(&mut self, row: &Row) -> Result<(), AllocError> {
        let card = card_of::<F>(row).to_vec(self.heap)?;
        let entered = self.tables.enter(row);
        let written = entered.is_ok_and(|draft| {
            writing_agrees(&draft, self.tables.generators.as_slice(), card.as_slice())
        });
        self.counts.written.note(written);
        let table = self.tables.generators.as_mut_slice();
        self.counts
            .read
            .add(try_card(&mut self.draws, card, table)?);
        Ok(())
    }

    // Performs the calls of a row that is not all zero as lists.
    fn try_runs(&mut self, row: &Row) -> Result<(), AllocError> {
        let Some(framed) = self.tables.frame(row) else {
            self.counts.runs.note(false);
            return Ok(());
        };
        let own = Tables::full(self.heap)?;
        let listed = Listed::draw(self.heap, &mut self.messages, row, &framed, &self.tables)?;
        self.counts.runs.note(listed.agrees(own)?);
        Ok(())
    }

    // Draws rows of one shape and tries each, and of each eighth the card and lists of calls.
    fn try_shape(&mut self, shape: Shape, rows: u32) -> Result<(), AllocError> {
        for number in 0..rows {
            let row = draw_row::<F>(&mut self.draws, shape);
            if row.is_zero() {
                self.counts
                    .empty
                    .note(refusal_agrees(&row, &mut self.tables));
            } else {
                self.try_frame(&row)?;
                self.try_offers(&row)?;
            }
            if number % 8 == 0 {
                self.try_keeping(&row)?;
                self.try_runs(&with_a_term(row))?;
            }
        }
        Ok(())
    }
}

// A row, or (1, 0, .., 0) in place of one that is all zero.
fn with_a_term(row: Row) -> Row {
    let mut row = row;
    if row.is_zero() {
        row.put(0, 0, 1);
    }
    row
}

// How many rows of each shape are drawn over each field.
const SHAPES: [(Shape, u32); 7] = [
    (Shape::Plain, 400),
    (Shape::Sparse, 400),
    (Shape::Shared, 200),
    (Shape::Flat, 100),
    (Shape::Largest, 16),
    (Shape::Scattered, 24),
    (Shape::Empty, 10),
];

fn try_shapes<F: Field + Clone + Drop>(heap: Global, seed: u64) -> Result<Counts, AllocError> {
    let mut trials = Trials::<F>::begin(heap, seed)?;
    for (shape, rows) in SHAPES {
        trials.try_shape(shape, rows)?;
    }
    Ok(trials.counts)
}

fn print_tally(rt: &HostRuntime, what: &str, tally: Tally) -> anyhow::Result<()> {
    let Tally { tried, differed } = tally;
    println!(rt; "  {tried} {what}: {differed} differed")?;
    Ok(())
}

// The trials over one field.
fn try_field<F: Field + Clone + Drop>(
    rt: &HostRuntime,
    name: &str,
    seed: u64,
) -> anyhow::Result<Tally> {
    let counts = try_shapes::<F>(rt.alloc(), seed)?;
    println!(rt; "Rows of 2 to 8 generators over {name}, drawn at random:")?;
    let mut total = Tally::default();
    for (what, tally) in counts.lines() {
        print_tally(rt, what, tally)?;
        total.add(tally);
    }
    Ok(total)
}

fn try_all(rt: &HostRuntime) -> anyhow::Result<()> {
    let heap = rt.alloc();
    let mut total = Tally::default();
    println!(rt; "Designs, a block and a card worked out by hand:")?;
    let worked = try_worked::<Byte>(heap)?;
    print_tally(rt, "answers", worked)?;
    total.add(worked);
    println!(rt; "Limits of the calls, with their refusals:")?;
    let limits = try_limits(heap)?;
    print_tally(rt, "answers", limits)?;
    total.add(limits);
    total.add(try_field::<Tone>(rt, "tones", 1)?);
    total.add(try_field::<Nibble>(rt, "nibbles", 2)?);
    total.add(try_field::<Byte>(rt, "bytes", 3)?);
    total.add(try_field::<TonePair>(rt, "tone pairs", 4)?);
    let Tally { tried, differed } = total;
    println!(rt; "Tried in all: {tried}. Differed: {differed}")?;
    Ok(())
}

fn main(rt: HostRuntime) -> anyhow::Result<()> {
    try_all(&rt)
}
