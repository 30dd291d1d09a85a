// Frames made elsewhere, handed in to be judged.
use crate::framed::{holds_divisor, numbers_agree};
use crate::station::{Tables, all_are, enter, mark};
use crate::tally::Tally;
use design::draft::Draft;
use design::framed::Framed;
use fields::field::Field;
use std::alloc::{AllocError, Global};
use trial_support::bounds::{Bounds, bound};
use trial_support::codes::write_members;
use trial_support::draws::Draws;
use trial_support::faults::Fault;
use trial_support::offers::{Offered, judge};
use trial_support::rows::Row;
use trial_support::sizes::{COLUMNS, FRAME, POWERS, ROW};
use trial_support::solver::solve;

// The offers for a row: granted as they should be, refused as they should be.
#[derive(Clone, Copy)]
pub struct Offers<'a> {
    row: &'a Row,
    bounds: Bounds,
    pub granted: Tally,
    pub refused: Tally,
}

impl<'a> Offers<'a> {
    // No offer yet for a row that is not all zero.
    fn begin<F: Field>(row: &'a Row) -> Offers<'a> {
        Offers {
            row,
            bounds: bound::<F>(row),
            granted: Tally::default(),
            refused: Tally::default(),
        }
    }

    // Whether a frame table holds the first n rows and columns of what was offered, the divisor, and zero elsewhere.
    fn holds_offered<F: Field>(&self, frame: &[F], offered: &[F]) -> bool {
        let n = self.row.n;
        let columns = frame.iter().zip(offered).enumerate().all(|(place, (kept, given))| {
            let within = place / ROW < n && place % ROW / POWERS < n;
            kept.code() == if within { given.code() } else { 0 }
        });
        columns && frame.len() == FRAME && holds_divisor(frame, &self.bounds)
    }

    // Whether a granted offer keeps the least degrees and leaves the tables as it should.
    fn grant_agrees<F: Field + Drop>(
        &self,
        framed: &Framed,
        offered: &[F],
        tables: &Tables<F>,
    ) -> bool {
        numbers_agree(self.row, framed, &self.bounds)
            && all_are(tables.work.as_slice(), 0)
            && self.holds_offered(tables.frame.as_slice(), offered)
    }

    // Offers columns for a draft, and counts whether the answer is that of the verdict.
    fn offer<F: Field + Drop>(&mut self, draft: Draft, offered: &[F], tables: &mut Tables<F>) {
        let verdict = judge(self.row, &self.bounds, offered);
        mark(tables.frame.as_mut_slice());
        match draft.offer(
            tables.generators.as_slice(),
            offered,
            tables.frame.as_mut_slice(),
            tables.work.as_mut_slice(),
        ) {
            Ok(framed) => {
                let agrees = self.grant_agrees(&framed, offered, tables);
                self.granted.note(verdict.is_ok() && agrees);
            }
            Err(back) => {
                let agrees = verdict == Err(Fault::of(&back.fault))
                    && back.design.count() == self.row.n
                    && all_are(tables.frame.as_slice(), 1)
                    && all_are(tables.work.as_slice(), 0);
                self.refused.note(agrees);
            }
        }
    }
}

// Offers the second solver's frame, and frames that come of it by changes, for a row that is not all zero.
pub(crate) fn try_offers<'a, F: Field + Clone + Drop>(
    heap: Global,
    draws: &mut Draws,
    row: &'a Row,
    tables: &mut Tables<F>,
) -> Result<Offers<'a>, AllocError> {
    let mut offers = Offers::begin::<F>(row);
    let mut columns = Offered::of(&solve::<F>(row));
    columns.spoil_rest(row.n);
    let mut offered = vec![in heap; F::zero(); COLUMNS]?;
    for _ in 0..6 {
        write_members(offered.as_mut_slice(), columns.columns.as_flattened());
        if let Ok(draft) = enter(row, tables.generators.as_mut_slice()) {
            offers.offer(draft, offered.as_slice(), tables);
        }
        columns.change::<F>(draws, row.n);
    }
    Ok(offers)
}
