// Offering a frame that was made elsewhere.
ghost use Rattle.std.specs.Prelude.{◌≡◌, IfOk, IfErr};
ghost use Rattle.design.specs.Offers.{Offers, OfferRefused, GrantsExactly};

use crate::draft::Draft;
use crate::fault::{DesignFault, HandedBack};
use crate::framed::Framed;
use fields::field::Field;
use judging::offer_row;
use tables::sizes::{COLUMNS, FRAME, GENERATORS, WORK};

impl Draft {
    // Takes the columns of an offered table where they are degree-optimal for the generators, and gives the framed design.
    // Refused, it hands the draft back. Power k of component i of column j stands at 136 j + 17 i + k; rows and columns from n on
    // are not read.
    pub fn offer<F: Field>(
        self,
        generators: &[F],
        offered: &[F],
        frame: &mut [F],
        work: &mut [F],
    ) -> Result<Framed, HandedBack<Draft>>
        ensures granted { IfOk result (λ x. Offers F.ops F.member self.n generators.now offered.now frame.old work.old frame.new work.new x.n x.degree x.divisor x.columns) }
        ensures refused { IfErr result (λ e. OfferRefused F.ops F.member self.n generators.now offered.now frame.old work.old work.new e.fault × (e.design ≡ self) × (frame.new ≡ frame.old)) }
        ensures exact { GrantsExactly F.ops F.member self.n generators.now offered.now frame.old work.old result }
    {
        if generators.len() != GENERATORS
            || offered.len() != COLUMNS
            || frame.len() != FRAME
            || work.len() != WORK
        {
            return Err(HandedBack::of(self, DesignFault::TableLength));
        }
        // Each arm moves the draft, which the closures of `map` and `map_err` cannot both take.
        match offer_row(self.count(), generators, offered, frame, work) {
            Ok(numbers) => Ok(Framed::of(self, numbers)),
            Err(objection) => Err(HandedBack::of(self, DesignFault::from(objection))),
        }
    }
}
