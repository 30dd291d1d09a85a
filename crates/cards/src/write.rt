// Writing a card.
ghost use Rattle.std.specs.Prelude.{take, IfOk};
ghost use Rattle.fields.specs.Elements.{code_of};
ghost use Rattle.cards.specs.RoundTrip.{ReadsBack};
ghost use Rattle.cards.specs.Writing.{Writes};

use crate::chains::{write_chains, write_heads};
use crate::sizes::{CARD, HEADER, RECORD};
use design::draft::Draft;
use design::fault::DesignFault;
use fields::field::Field;
use tables::sizes::GENERATORS;

// Writes the card of a design into a buffer of 555 bytes, and answers its length; zeros follow.
// The caller lends the buffer, since no memory is asked for here; only the length says where the card ends in it.
pub fn write_card<F: Field>(
    draft: &Draft,
    generators: &[F],
    buffer: &mut [u8],
) -> Result<usize, DesignFault>
    ensures written { Writes (code_of F.number F.member) F.tag draft.now.n generators.now buffer.old result buffer.new }
    ensures read_back { IfOk result (λ long. ReadsBack F.ops F.member F.number F.order F.tag draft.now.n generators.now (take long buffer.new)) }
{
    if generators.len() != GENERATORS || buffer.len() != CARD {
        return Err(DesignFault::TableLength);
    }
    let n = draft.count();
    buffer.fill(0);
    buffer[0] = F::kind();
    buffer[1] = n as u8;
    let m = write_heads(n, generators, buffer);
    buffer[2] = m as u8;
    write_chains(n, generators, buffer);
    Ok(HEADER + n + RECORD * m)
}
