// The walk-through: a design over the tones, from its codes to its card, its frame and the link; then one whose generators have a common
// factor.
use crate::station::{Answered, Station};
use anyhow::anyhow;
use design::framed::Framed;
use fields::field::Field;
use history::request::{Answer, Design, Request};
use std::alloc::Global;
use tables::sizes::{COLUMNS, GENERATORS, WIDTH, WORK};
use texts::polynomial::RowText;
use tones::Tone;
use tones::Tone::{T0, T1, T30};
use walkthrough::card::Kept;
use walkthrough::columns::{ColumnsText, spoiled};
use walkthrough::designs::{
    DESIGN, DESIGN_BLOCK, DivisorText, Entry, HIT, SENT, SHARED, SHARED_BLOCK, SLIPS,
};
use walkthrough::products::ProductsText;

// A column of two components, each by its coefficients from power 0 up.
type Column = [[Tone; 4]; 2];

// The column (1, 1 + 30s).
const FIRST: Column = [[T1, T0, T0, T0], [T1, T30, T0, T0]];

// Columns offered for (s^2, 1 + s): the second is (1 + s, 30s^2).
const GOOD: [Column; 2] = [FIRST, [[T1, T1, T0, T0], [T0, T0, T30, T0]]];

// The same with the second column times s.
const LONGER: [Column; 2] = [FIRST, [[T0, T1, T1, T0], [T0, T0, T0, T30]]];

// Enters coefficients, then prints the generators.
fn enter(rt: &HostRuntime, station: Station, entries: &[Entry]) -> anyhow::Result<Station> {
    let requests = entries
        .iter()
        .map(|entry| Request::from(*entry))
        .collect::<Vec<_>>(rt.alloc())?;
    let Answered { station, .. } = station.run(rt, entries, requests)?;
    let row = RowText {
        row: &station.generators[..2 * WIDTH],
    };
    println!(rt; "The generators are now {row}.")?;
    Ok(station)
}

// Shows a frame, and what it means for one hit where the link carries the design.
fn show(rt: &HostRuntime, framed: &Framed, frame: &[Tone]) -> anyhow::Result<()> {
    print!(rt; "{}", ColumnsText { framed, frame })?;
    println!(rt; "No Bezout vector is shorter than column 0.")?;
    if framed.divisor_degree() == 0 {
        println!(rt;
            "So one hit on the air spoils at most {} of a message's symbols.",
            spoiled(framed)
        )?;
    }
    Ok(())
}

// Frames a design and shows its frame.
fn frame(rt: &HostRuntime, station: Station) -> anyhow::Result<Station> {
    println!(rt; "The design is framed:")?;
    let work = vec![in rt.alloc(); Tone::T0; WORK]?;
    let requests = vec![in rt.alloc(); Request::Frame { work }]?;
    let Answered { station, .. } = station.run(rt, &["frame"], requests)?;
    if let Design::Framed(framed) = &station.design {
        show(rt, framed, &station.frame)?;
    }
    Ok(station)
}

// Encodes the message 3 1 into a block of so many symbols.
fn encode(rt: &HostRuntime, station: Station, long: usize) -> anyhow::Result<Answered> {
    let message = Vec::from_slice(rt.alloc(), &SENT)?;
    let block = vec![in rt.alloc(); Tone::T0; long]?;
    let requests = vec![in rt.alloc(); Request::Encode { message, block }]?;
    station.run(rt, &["encode"], requests)
}

// Checks a block and inverts it.
fn receive(rt: &HostRuntime, station: Station, block: &[Tone]) -> anyhow::Result<Answered> {
    let heap = rt.alloc();
    let check = Request::Check {
        block: Vec::from_slice(heap, block)?,
    };
    let invert = Request::Invert {
        block: Vec::from_slice(heap, block)?,
        message: vec![in heap; Tone::T0; SENT.len()]?,
    };
    let requests = vec![in heap; check, invert]?;
    station.run(rt, &["check", "invert"], requests)
}

// Prints how many symbols of the message were spoiled, beside what the frame allows.
fn compare(rt: &HostRuntime, answered: &Answered) -> anyhow::Result<()> {
    let (Some(Answer::Invert { message, .. }), Design::Framed(framed)) = (
        answered.answers.last(),
        &answered.station.design,
    ) else {
        return Ok(());
    };
    let differ = SENT
        .iter()
        .zip(message.iter())
        .filter(|(x, y)| !x.same(**y))
        .count();
    println!(rt;
        "The hit spoiled {differ} of the message's symbols; no hit spoils more than {}.",
        spoiled(framed)
    )?;
    Ok(())
}

// Sends the message 3 1, then hits a symbol of its block.
fn send(rt: &HostRuntime, station: Station) -> anyhow::Result<Station> {
    println!(rt; "The message 3 1 is encoded, and its block checked and inverted:")?;
    let mut encoded = encode(rt, station, DESIGN_BLOCK)?;
    let Some(Answer::Encode { mut block, .. }) = encoded.answers.pop() else {
        return Err(anyhow!("encode was refused"));
    };
    let clean = receive(rt, encoded.station, &block)?;
    println!(rt; "The fourth symbol is hit, from 4 to 9:")?;
    let (place, hit) = HIT;
    if let Some(symbol) = block.get_mut(place) {
        *symbol = hit;
    }
    let spoilt = receive(rt, clean.station, &block)?;
    compare(rt, &spoilt)?;
    Ok(spoilt.station)
}

// Writes the components of a column, one behind the other.
fn write_column(table: &mut [Tone], column: &Column) {
    for (place, component) in table.chunks_mut(WIDTH).zip(column.iter()) {
        if let Some(front) = place.get_mut(..component.len()) {
            front.copy_from_slice(component);
        }
    }
}

// An offered table.
fn offered(heap: Global, columns: &[Column]) -> anyhow::Result<Request<Tone>> {
    let mut offered = vec![in heap; Tone::T0; COLUMNS]?;
    for (table, column) in offered.chunks_mut(GENERATORS).zip(columns.iter()) {
        write_column(table, column);
    }
    let work = vec![in heap; Tone::T0; WORK]?;
    Ok(Request::Offer { offered, work })
}

// A framed design takes no put; reopened, it takes a frame made elsewhere, if it is degree-optimal.
fn offer(rt: &HostRuntime, station: Station) -> anyhow::Result<()> {
    println!(rt;
        "A framed design takes no put. Reopened, it is offered columns made elsewhere, first one too long, then good ones:"
    )?;
    let put = Request::Put {
        i: 0,
        power: 0,
        code: 5,
    };
    let longer = offered(rt.alloc(), &LONGER)?;
    let good = offered(rt.alloc(), &GOOD)?;
    let requests = vec![in rt.alloc(); put, Request::Reopen, longer, good]?;
    let calls = [
        "put code 5 at power 0 of generator 0",
        "reopen",
        "offer (1, 1 + 30s), (s + s^2, 30s^3)",
        "offer (1, 1 + 30s), (1 + s, 30s^2)",
    ];
    station.run(rt, &calls, requests)?;
    Ok(())
}

// A design whose generators have a common factor: the link turns it away.
fn factor(rt: &HostRuntime) -> anyhow::Result<()> {
    println!(rt; "Another design is entered, whose generators have a common factor:")?;
    let station = enter(rt, Station::begin(rt.alloc())?, &SHARED)?;
    let divisor = DivisorText {
        generators: &station.generators,
    };
    println!(rt; "{divisor}")?;
    let framed = frame(rt, station)?;
    println!(rt; "The message 3 1 is to be sent over it:")?;
    encode(rt, framed, SHARED_BLOCK)?;
    Ok(())
}

// The design (s^2, 1 + s): entered, with two slips, and kept on a card.
fn first_design(rt: &HostRuntime) -> anyhow::Result<Station> {
    println!(rt; "A new design of 2 generators over the 31 tones is begun.")?;
    let station = Station::begin(rt.alloc())?;
    println!(rt; "Its generators s^2 and 1 + s are entered by their codes:")?;
    let station = enter(rt, station, &DESIGN)?;
    println!(rt; "Two slips of the hand are refused, and change nothing:")?;
    let station = enter(rt, station, &SLIPS)?;
    if let Design::Draft(draft) = &station.design {
        let kept = Kept::of(rt.alloc(), draft, &station.generators)?;
        print!(rt; "{kept}")?;
    }
    Ok(station)
}

// The walk-through, whole.
pub fn walk(rt: &HostRuntime) -> anyhow::Result<()> {
    let station = first_design(rt)?;
    let station = frame(rt, station)?;
    let station = send(rt, station)?;
    offer(rt, station)?;
    factor(rt)?;
    print!(rt; "{ProductsText}")?;
    Ok(())
}
