// One line of a script.
ghost use Rattle.std.specs.Prelude.{IfOk};
ghost use Rattle.scripts.specs.Meaning.{Says};
ghost use Rattle.scripts.specs.Words.{words, uncommented};

use crate::arguments::{Unread, arguments};
use crate::call::{Call, Keyword};
use crate::words::{Mark, cut_at, first_word};
use std::alloc::{AllocError, Global};
use std::fmt;

// What a line that is no call has not.
#[derive(Clone, Copy, PartialEq, Eq, Debug)]
pub enum Expected {
    // A keyword at its front.
    Call,
    // What that keyword asks for.
    Arguments(Keyword),
}

impl fmt::Display for Expected {
    fn fmt<W: fmt::Write>(&self, f: &mut fmt::Formatter<W>) -> fmt::Result {
        match self {
            Expected::Call => write!(f, "a call was expected"),
            Expected::Arguments(keyword) => {
                let form = keyword.form();
                write!(f, "{form} was expected")
            }
        }
    }
}

// What a line is. A wrong line is no failure to read it, since the script goes on, and a blank line is no call:
// so three outcomes, and no results in one another.
#[derive(Drop)]
pub enum Line {
    // Blanks and a comment, or less.
    Blank,
    Call(Call),
    Wrong(Expected),
}

// Reads one line. Err: no memory.
pub fn read_line(heap: Global, line: &[u8]) -> Result<Line, AllocError>
    ensures { IfOk result (Says (words (uncommented line.now))) }
{
    let script = cut_at(line, Mark::Hash).piece;
    let Some(first) = first_word(script) else {
        return Ok(Line::Blank);
    };
    let Some(keyword) = Keyword::of(first.word) else {
        return Ok(Line::Wrong(Expected::Call));
    };
    match arguments(heap, keyword, first.rest) {
        Ok(call) => Ok(Line::Call(call)),
        Err(Unread::NoFit) => Ok(Line::Wrong(Expected::Arguments(keyword))),
        Err(Unread::NoMemory) => Err(AllocError),
    }
}
