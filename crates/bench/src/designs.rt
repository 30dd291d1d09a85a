// Frames of 8 random generators of degree 16, and blocks of the longest message.
use crate::measure::Bench;
use design::draft::Draft;
use design::framed::Framed;
use fields::field::Field;
use link::calls::{SYMBOLS, check, encode, invert};
use random::Random;
use std::alloc::Global;
use std::{fmt, io};
use tables::sizes::{HIGHEST, MAX_COUNT};
use test_support::designs::Tables;

const FRAMES: u32 = 1000;

const BLOCKS: u32 = 20;

// The symbols of a stream under a design of degree 16.
const STREAM: usize = SYMBOLS + HIGHEST;

// A framed design, in words.
#[derive(Drop)]
struct FramedText(Framed);

impl fmt::Display for FramedText {
    fn fmt<W: fmt::Write>(&self, f: &mut fmt::Formatter<W>) -> fmt::Result {
        let degree = self.0.degree();
        let [first, ..] = self.0.columns().to_le_bytes();
        write!(f, "of degree {degree}, column 0 of degree {first}")
    }
}

// A draft of n generators whose codes look random, of degree 16.
fn draw<F: Field>(tables: &mut Tables<F>, n: usize) -> Option<Draft> {
    let draft = Draft::begin(n, &mut tables.generators).ok()?;
    Random::seeded(1).fill(&mut tables.generators);
    Some(draft)
}

fn frame<F: Field>(tables: &mut Tables<F>, draft: Draft) -> Option<Framed> {
    draft
        .frame(&tables.generators, &mut tables.frame, &mut tables.work)
        .ok()
}

// Frames a draft of 8 generators and reopens it, again and again.
fn frame_again<F: Field>(tables: &mut Tables<F>) -> Option<FramedText> {
    let mut draft = draw(tables, MAX_COUNT)?;
    for _ in 0..FRAMES {
        let framed = frame(tables, draft)?;
        draft = framed.reopen(&mut tables.frame).ok()?;
    }
    frame(tables, draft).map(FramedText)
}

// Whether a call answers yes every time. Tried by `all` over the range: that it may be called at each turn was not found.
fn every_time<C: FnMut() -> bool>(mut call: C) -> bool
    requires { C.IsAlwaysCallable call }
{
    for _ in 0..BLOCKS {
        if !call() {
            return false;
        }
    }
    true
}

// Encodes, checks and inverts a message of codes that look random.
fn run_blocks<F: Field>(
    bench: &Bench<'_>,
    framed: &Framed,
    tables: &Tables<F>,
    message: &mut [F],
    block: &mut [F],
) -> io::Result<()> {
    Random::seeded(1).fill(message);
    let Tables {
        generators,
        frame,
        ..
    } = tables;
    bench.measure("  encode", || {
        Some(every_time(|| encode(framed, generators, message, block).is_ok()))
    })?;
    bench.measure("  check", || {
        Some(every_time(|| check(framed, frame, block).unwrap_or(false)))
    })?;
    bench.measure("  invert", || {
        Some(every_time(|| invert(framed, frame, block, message).is_ok()))
    })
}

// Sends messages under n generators.
fn run_link<F: Field + Clone>(
    bench: &Bench<'_>,
    heap: Global,
    n: usize,
    tables: &mut Tables<F>,
    message: &mut [F],
) -> anyhow::Result<()> {
    bench.heading(format_args!("blocks of {n} streams"))?;
    let mut block = vec![in heap; F::zero(); n.saturating_mul(STREAM)]?;
    if let Some(draft) = draw(tables, n) {
        if let Some(framed) = frame(tables, draft) {
            run_blocks(bench, &framed, tables, message, &mut block)?;
        }
    }
    Ok(())
}

// Frames and blocks.
pub(crate) fn run_designs<F: Field + Clone>(
    bench: &Bench<'_>,
    heap: Global,
    name: &str,
) -> anyhow::Result<()> {
    let mut tables = Tables::full_of(heap, F::zero())?;
    let mut message = vec![in heap; F::zero(); SYMBOLS]?;
    bench.measure(name, || frame_again(&mut tables))?;
    run_link(bench, heap, 2, &mut tables, &mut message)?;
    run_link(bench, heap, MAX_COUNT, &mut tables, &mut message)
}
