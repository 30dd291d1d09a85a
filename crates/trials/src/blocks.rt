// Messages sent under a framed design, hit, and brought home.
use crate::station::Tables;
use crate::tally::Tally;
use design::framed::Framed;
use fields::field::Field;
use link::calls::{check, encode, invert};
use std::alloc::{AllocError, Global};
use trial_support::blocks::{code_at, differences, is_block, same_outside};
use trial_support::codes::member_of;
use trial_support::draws::Draws;
use trial_support::rows::Row;

// The longest block of which each symbol is changed to every other member.
const SHORT: usize = 12;

// A message under a framed design whose divisor is 1, its block, and room for what inverting gives.
#[derive(Drop)]
pub struct Sending<'a, F: Field + Drop> {
    row: &'a Row,
    framed: &'a Framed,
    tables: &'a Tables<F>,
    message: Vec<F>,
    block: Vec<F>,
    back: Vec<F>,
}

// A message of 1 to 4 symbols.
pub(crate) fn draw_message<F: Field + Clone + Drop>(
    heap: Global,
    draws: &mut Draws,
) -> Result<Vec<F>, AllocError> {
    let mut message = vec![in heap; F::zero(); draws.place(4) + 1]?;
    for x in message.iter_mut() {
        *x = member_of(draws.code::<F>());
    }
    Ok(message)
}

impl<'a, F: Field + Clone + Drop> Sending<'a, F> {
    // A message of at most 4 symbols, and room for its block.
    pub(crate) fn draw(
        heap: Global,
        draws: &mut Draws,
        row: &'a Row,
        framed: &'a Framed,
        tables: &'a Tables<F>,
    ) -> Result<Sending<'a, F>, AllocError> {
        let message = draw_message::<F>(heap, draws)?;
        let symbols = message.len();
        let times = symbols.saturating_add(framed.degree());
        Ok(Sending {
            row,
            framed,
            tables,
            message,
            block: vec![in heap; F::one(); framed.generators().saturating_mul(times)]?,
            back: vec![in heap; F::one(); symbols]?,
        })
    }
}

impl<F: Field + Drop> Sending<'_, F> {
    // Whether the message's block is the one of the definition, is clean, and brings the message home.
    pub(crate) fn agrees(&mut self) -> bool {
        let encoded = encode(
            self.framed,
            self.tables.generators.as_slice(),
            self.message.as_slice(),
            self.block.as_mut_slice(),
        );
        encoded.is_ok()
            && self.is_clean() == Some(true)
            && self.invert()
            && is_block(self.row, self.message.as_slice(), self.block.as_slice())
            && differences(self.message.as_slice(), self.back.as_slice()) == 0
    }

    // Whether the block is found clean, absent where the call refuses.
    fn is_clean(&self) -> Option<bool> {
        let frame = self.tables.frame.as_slice();
        check(self.framed, frame, self.block.as_slice()).ok()
    }

    // Inverts the block; answers whether the call granted it.
    fn invert(&mut self) -> bool {
        let frame = self.tables.frame.as_slice();
        invert(
            self.framed,
            frame,
            self.block.as_slice(),
            self.back.as_mut_slice(),
        )
        .is_ok()
    }

    // Whether the block with the symbol at a place changed is told unclean, or, where the stream of the symbol is the only one that is not
    // zero, is the block of another message; and spoils few symbols, all from its time on.
    fn hit_agrees(&mut self, place: usize) -> bool {
        let time = place.checked_div(self.row.n).unwrap_or(0);
        let stream = place.checked_rem(self.row.n);
        let alone = stream.is_some_and(|i| self.row.is_alone(i));
        let [reach, ..] = self.framed.columns().to_le_bytes();
        let reach = usize::from(reach);
        if !self.invert() {
            return false;
        }
        is_block(self.row, self.back.as_slice(), self.block.as_slice()) == alone
            && self.is_clean() == Some(alone)
            && same_outside(
                self.message.as_slice(),
                self.back.as_slice(),
                time,
                time.saturating_add(reach),
            )
            && differences(self.message.as_slice(), self.back.as_slice()) <= reach + 1
    }

    // Sets the symbol at a place of the block.
    fn set(&mut self, place: usize, code: u16) {
        if let Some(symbol) = self.block.get_mut(place) {
            *symbol = member_of(code);
        }
    }

    // Changes the symbol at a place so many times, each time to the member of the next code.
    fn change_symbol<C: FnMut(u32) -> u16>(
        &mut self,
        place: usize,
        changes: u32,
        mut next: C,
    ) -> Tally
        requires { (f : C) (x : _) → C.pre f x }
    {
        let right = code_at(self.block.as_slice(), place);
        let tally = Tally::of(changes, |step| {
            let code = next(step);
            if code == right {
                return None;
            }
            self.set(place, code);
            Some(self.hit_agrees(place))
        });
        self.set(place, right);
        tally
    }

    // Changes one symbol after the other: to every other member in a short block, to three in a long one. By place, since the block
    // changes meanwhile.
    pub(crate) fn change_symbols(&mut self, draws: &mut Draws) -> Tally {
        let mut tally = Tally::default();
        let length = self.block.len();
        for place in 0..length {
            tally.add(if length <= SHORT {
                self.change_symbol(place, F::size(), |step| u16::try_from(step).unwrap_or(0))
            } else {
                self.change_symbol(place, 3, |_| draws.code::<F>())
            });
        }
        tally
    }
}
