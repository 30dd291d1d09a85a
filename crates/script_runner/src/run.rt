// A whole script.
use crate::desk::Desk;
use nibbles::Nibble;
use scripts::call::{Call, FieldName};
use scripts::line::{Line, read_line};
use scripts::words::{Mark, Pieces};
use std::alloc::{AllocError, Global};
use tones::Tone;
use towers::{Byte, TonePair};

// The tables of the field that the script speaks of. An enum, since a function that hands out a `dyn` is not admitted.
#[derive(Drop)]
pub enum Place {
    Tones(Desk<Tone>),
    Nibbles(Desk<Nibble>),
    Bytes(Desk<Byte>),
    TonePairs(Desk<TonePair>),
}

impl Place {
    // The tables of a field, with no design.
    fn of(heap: Global, name: FieldName) -> Result<Place, AllocError> {
        match name {
            FieldName::Tones => Ok(Place::Tones(Desk::new(heap)?)),
            FieldName::Nibbles => Ok(Place::Nibbles(Desk::new(heap)?)),
            FieldName::Bytes => Ok(Place::Bytes(Desk::new(heap)?)),
            FieldName::TonePairs => Ok(Place::TonePairs(Desk::new(heap)?)),
        }
    }

    // A script begins with the tones.
    pub fn new(heap: Global) -> Result<Place, AllocError> {
        Place::of(heap, FieldName::Tones)
    }

    // Performs a call, and says what is printed of it.
    fn call(&mut self, heap: Global, call: &Call) -> Result<String, AllocError> {
        if let Call::Field(name) = call {
            *self = Place::of(heap, *name)?;
        }
        match self {
            Place::Tones(desk) => desk.call(call),
            Place::Nibbles(desk) => desk.call(call),
            Place::Bytes(desk) => desk.call(call),
            Place::TonePairs(desk) => desk.call(call),
        }
    }

    // Performs line `number` of a script, and says what is printed of it; none of a blank line. Err: no memory.
    pub fn line(
        &mut self,
        heap: Global,
        number: u64,
        line: &[u8],
    ) -> Result<Option<String>, AllocError> {
        match read_line(heap, line)? {
            Line::Blank => Ok(None),
            Line::Call(call) => Ok(Some(self.call(heap, &call)?)),
            Line::Wrong(expected) => Ok(Some(format!(in heap; "line {number}: {expected}")?)),
        }
    }
}

// Performs a script, and prints what is to be printed of each line.
pub fn run(rt: &HostRuntime, script: &[u8]) -> anyhow::Result<()> {
    let mut place = Place::new(rt.alloc())?;
    for (number, line) in (1u64..).zip(Pieces::of(script, Mark::Newline)) {
        if let Some(text) = place.line(rt.alloc(), number, line)? {
            println!(rt; "{text}")?;
        }
    }
    Ok(())
}
