// Framing a draft.
ghost use Rattle.std.specs.Prelude.{◌≡◌, IfOk, IfErr};
ghost use Rattle.design.specs.Frames.{Frames, FrameRefused};

use crate::draft::Draft;
use crate::fault::{DesignFault, HandedBack};
use crate::framed::Framed;
use fields::field::Field;
use framing::frame_row;
use tables::sizes::{FRAME, GENERATORS, WORK};

impl Draft {
    // Writes the degree-optimal frame of the generators and gives the framed design; refused, it hands the draft back.
    pub fn frame<F: Field>(
        self,
        generators: &[F],
        frame: &mut [F],
        work: &mut [F],
    ) -> Result<Framed, HandedBack<Draft>>
        ensures granted { IfOk result (λ x. Frames F.ops F.member self.n generators.now frame.old work.old frame.new work.new x.n x.degree x.divisor x.columns) }
        ensures refused { IfErr result (λ e. FrameRefused F.ops F.member self.n generators.now frame.old work.old work.new e.fault × (e.design ≡ self) × (frame.new ≡ frame.old)) }
    {
        if generators.len() != GENERATORS || frame.len() != FRAME || work.len() != WORK {
            return Err(HandedBack::of(self, DesignFault::TableLength));
        }
        let Some(numbers) = frame_row(self.count(), generators, frame, work) else {
            return Err(HandedBack::of(self, DesignFault::AllZero));
        };
        Ok(Framed::of(self, numbers))
    }
}
