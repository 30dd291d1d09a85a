// Judging a frame that was made elsewhere, exactly, and taking it.
#![tactic(auto)]

ghost use Rattle.std.specs.Prelude.{◌≡◌, ◌-◌, ◌≤◌, length, MatchResult};
ghost use Rattle.frames.specs.Rows.{generator_in};
ghost use Rattle.framing.specs.Framing.{column_in};
ghost use Rattle.tables.specs.Places.{Cleared};
ghost use Rattle.judging.specs.Offers.{Objects, HoldsOffer, TellsOptimal};

use crate::objection::Objection;
use crate::offer::Offer;
use fields::field::Field;
use framing::Numbers;
use tables::clear;
use tables::sizes::{COLUMNS, FRAME, GENERATORS, MAX_COUNT, WORK};

mod degrees;
mod judge;
mod leading;
pub mod objection;
mod offer;
mod products;
mod taking;

// How many factors the steps of elimination have, at most. They lie at the front of the work table, and the column that is taken behind
// them. What else the judge needs, a product, the degrees and the pivot rows, are arrays of fixed size: no memory is allocated below
// `history`.
const FACTORS: usize = MAX_COUNT * MAX_COUNT;

// Judges offered columns for the first n generators, and takes them into the frame table where nothing speaks against them. Leaves the work
// table at zero.
pub fn offer_row<F: Field>(
    n: usize,
    generators: &[F],
    offered: &[F],
    frame: &mut [F],
    work: &mut [F],
) -> Result<Numbers, Objection>
    requires sized { (2 ≤ n) × (n ≤ MAX_COUNT) }
    requires room { (length generators.now ≡ GENERATORS) × ((length offered.now ≡ COLUMNS) × ((length frame.old ≡ FRAME) × (length work.old ≡ WORK))) }
    ensures answer { MatchResult result (λ x. HoldsOffer F.ops F.member n generators.now offered.now frame.new x.degree x.divisor x.columns) (λ x. Objects F.ops n (n - 1) (generator_in F.ops F.member generators.now) (column_in F.ops F.member offered.now) x × (frame.new ≡ frame.old)) }
    ensures exact { TellsOptimal F.ops (n - 1) (generator_in F.ops F.member generators.now) (column_in F.ops F.member offered.now) result }
    ensures cleared { Cleared F.ops F.member work.new }
{
    let taken = Offer {
        n,
        generators,
        offered,
    }
    .take(frame, work);
    clear(work);
    taken
}
