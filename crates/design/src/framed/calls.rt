// The calls on a framed design.
ghost use Rattle.std.specs.Prelude.{◌≡◌, ◌+◌, ◌*◌, length, take, drop, IfOk, MatchResult};
ghost use Rattle.std.specs.Result.{result_err};
ghost use Rattle.fields.specs.Questions.{first_no};
ghost use Rattle.tables.specs.Places.{Cleared};
ghost use Rattle.design.specs.Frames.{reopen_questions, column_questions, column_place, refusal};

use crate::draft::Draft;
use crate::fault::{DesignFault, HandedBack};
use crate::framed::Framed;
use fields::field::Field;
use tables::sizes::{FRAME, GENERATORS, WIDTH};

impl Framed {
    // Sets the frame to zero and gives a draft, whose generators can be changed again.
    pub fn reopen<F: Field>(self, frame: &mut [F]) -> Result<Draft, HandedBack<Framed>>
        ensures answer { refusal result ≡ first_no (reopen_questions (length frame.old)) }
        ensures table { MatchResult result (λ d. (d.n ≡ self.n) × Cleared F.ops F.member frame.new) (λ e. (e.design ≡ self) × (frame.new ≡ frame.old)) }
    {
        if frame.len() != FRAME {
            return Err(HandedBack::of(self, DesignFault::TableLength));
        }
        tables::clear(frame);
        Ok(Draft::of(self.n))
    }

    // The coefficients of component i in column j, as that part of the frame table.
    pub fn column<'a, F: Field>(
        &self,
        frame: &'a [F],
        i: usize,
        j: usize,
    ) -> Result<&'a [F], DesignFault>
        ensures answer { result_err result ≡ first_no (column_questions self.now.n i j (length frame.now)) }
        ensures part { IfOk result (λ s. s.now ≡ take WIDTH (drop (column_place i j) frame.now)) }
    {
        if frame.len() != FRAME {
            return Err(DesignFault::TableLength);
        }
        if i >= self.n || j >= self.n {
            return Err(DesignFault::NoSuchGenerator);
        }
        let place = GENERATORS * j + WIDTH * i;
        Ok(&frame[place..place + WIDTH])
    }
}
