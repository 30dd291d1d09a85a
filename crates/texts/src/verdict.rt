// What a check says of a block.
use std::fmt;

// Whether the block is clean.
#[derive(Clone, Copy)]
pub struct VerdictText(pub bool);

impl fmt::Display for VerdictText {
    fn fmt<W: fmt::Write>(&self, f: &mut fmt::Formatter<W>) -> fmt::Result {
        write!(f, "{}", if self.0 { "clean" } else { "unclean" })
    }
}
