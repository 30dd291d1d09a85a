// Writing one record into a buffer.
ghost use Rattle.std.specs.Prelude.{◌≡◌, ◌+◌, ◌/◌, ◌%◌, ◌≤◌, [], ◌∷◌, length, unwrap_or};
ghost use Rattle.cards.specs.Overwriting.{over};

use crate::sizes::RECORD;

// A record: a power, the code at it, and the number of the record after it, if there is one.
#[derive(Clone, Copy)]
pub struct Record {
    pub power: u8,
    pub code: u16,
    pub next: Option<u8>,
}

impl Record {
    // Its bytes on a card: the code's low byte first, and 0 where no record follows.
    fn to_bytes(self) -> [u8; RECORD]
        ensures { result ≡ self.power ∷ self.code % 256 ∷ self.code / 256 ∷ unwrap_or self.next 0 ∷ [] }
    {
        let [low, high] = self.code.to_le_bytes();
        [self.power, low, high, self.next.unwrap_or(0)]
    }
}

// Writes one record from a place on.
pub fn write_record(buffer: &mut [u8], at: usize, item: Record)
    requires { at + RECORD ≤ length buffer.old }
    ensures { buffer.new ≡ over at (item.power ∷ item.code % 256 ∷ item.code / 256 ∷ unwrap_or item.next 0 ∷ []) buffer.old }
{
    // Byte by byte: with a slice of four bytes copied, the longest card needs half as many instructions again.
    let [power, low, high, next] = item.to_bytes();
    buffer[at] = power;
    buffer[at + 1] = low;
    buffer[at + 2] = high;
    buffer[at + 3] = next;
}
