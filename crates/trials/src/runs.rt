// Calls performed as lists: each answer, and what is left in the tables, against the single calls and the second solver.
use crate::blocks::draw_message;
use crate::framed::frame_agrees;
use crate::station::{Tables, all_are, holds};
use design::draft::Draft;
use design::fault::DesignFault;
use design::framed::Framed;
use fields::field::Field;
use history::perform::{Performed, perform};
use history::request::{Answer, Design, Request};
use link::calls::{check, encode, invert};
use link::fault::LinkFault;
use std::alloc::{AllocError, Global};
use trial_support::blocks::{differences, is_block};
use trial_support::codes::write_members;
use trial_support::draws::Draws;
use trial_support::rows::Row;
use trial_support::sizes::{COLUMNS, POWERS, WORK};
use trial_support::solver::solve;

// Whether two tables are the same.
fn same<F: Field>(left: &[F], right: &[F]) -> bool {
    left.len() == right.len() && differences(left, right) == 0
}

// Whether a request to frame was answered so, and its work table is zero.
fn is_framed<F: Field>(answer: &Answer<F>, expected: Result<(), DesignFault>) -> bool {
    match answer {
        Answer::Frame { answer, work } => *answer == expected && all_are(work, 0),
        _ => false,
    }
}

// Whether a request to check this block was answered so.
fn is_checked<F: Field>(
    answer: &Answer<F>,
    expected: Result<bool, LinkFault>,
    brought: &[F],
) -> bool {
    match answer {
        Answer::Check { answer, block } => *answer == expected && same(block, brought),
        _ => false,
    }
}

// A message under a framed row, its block, what inverting gives, and the block with a hit, with the answers of the single calls.
#[derive(Drop)]
struct Sent<F: Field + Drop> {
    message: Vec<F>,
    block: Vec<F>,
    back: Vec<F>,
    hit: Vec<F>,
    encoded: Result<(), LinkFault>,
    clean: Result<bool, LinkFault>,
    inverted: Result<(), LinkFault>,
    told: Result<bool, LinkFault>,
}

impl<F: Field + Clone + Drop> Sent<F> {
    fn draw(
        heap: Global,
        draws: &mut Draws,
        framed: &Framed,
        tables: &Tables<F>,
    ) -> Result<Sent<F>, AllocError> {
        let message = draw_message::<F>(heap, draws)?;
        let times = message.len().saturating_add(framed.degree());
        let mut block = vec![in heap; F::one(); framed.generators().saturating_mul(times)]?;
        let mut back = vec![in heap; F::one(); message.len()]?;
        let generators = tables.generators.as_slice();
        let frame = tables.frame.as_slice();
        let encoded = encode(framed, generators, &message, &mut block);
        let clean = check(framed, frame, &block);
        let inverted = invert(framed, frame, &block, &mut back);
        let mut hit = block.clone()?;
        if let Some(symbol) = hit.get_mut(0) {
            *symbol = symbol.add(F::one());
        }
        let told = check(framed, frame, &hit);
        Ok(Sent {
            message,
            block,
            back,
            hit,
            encoded,
            clean,
            inverted,
            told,
        })
    }

    // Whether the single calls refuse by 11 where the divisor is not 1, and else give the block of the definition and bring the message
    // home.
    fn agrees(&self, row: &Row, framed: &Framed) -> bool {
        if framed.divisor_degree() != 0 {
            let refused = Err(LinkFault::Divisor);
            return self.encoded == refused && self.inverted == refused;
        }
        self.encoded == Ok(())
            && self.clean == Ok(true)
            && self.inverted == Ok(())
            && is_block(row, &self.message, &self.block)
            && same(&self.message, &self.back)
    }
}

// A row that was framed by the single calls, with what they left, to be entered, framed and sent under by lists of requests.
#[derive(Drop)]
pub(crate) struct Listed<'a, F: Field + Drop> {
    heap: Global,
    row: &'a Row,
    framed: &'a Framed,
    tables: &'a Tables<F>,
    sent: Sent<F>,
    // The second solver's columns.
    columns: Vec<F>,
}

impl<'a, F: Field + Clone + Drop> Listed<'a, F> {
    pub(crate) fn draw(
        heap: Global,
        draws: &mut Draws,
        row: &'a Row,
        framed: &'a Framed,
        tables: &'a Tables<F>,
    ) -> Result<Listed<'a, F>, AllocError> {
        let mut columns = vec![in heap; F::zero(); COLUMNS]?;
        write_members(&mut columns, &solve::<F>(row));
        Ok(Listed {
            heap,
            row,
            framed,
            tables,
            sent: Sent::draw(heap, draws, framed, tables)?,
            columns,
        })
    }
}

impl<F: Field + Clone + Drop> Listed<'_, F> {
    // A table of ones.
    fn ones(&self, length: usize) -> Result<Vec<F>, AllocError> {
        vec![in self.heap; F::one(); length]
    }

    // Frames while every generator is zero, enters the row, puts past it, checks a block, offers the second solver's columns, reopens, and
    // frames.
    fn entering(&self) -> Result<Vec<Request<F>>, AllocError> {
        let early = Request::Frame {
            work: self.ones(WORK)?,
        };
        let mut requests = vec![in self.heap; early]?;
        for (place, code) in self.row.polynomials().as_flattened().iter().enumerate() {
            if *code != 0 {
                requests.push(Request::Put {
                    i: place / POWERS,
                    power: place % POWERS,
                    code: u32::from(*code),
                })?;
            }
        }
        requests.push(Request::Put {
            i: self.row.n,
            power: 0,
            code: 1,
        })?;
        requests.push(Request::Check {
            block: self.sent.block.clone()?,
        })?;
        requests.push(Request::Offer {
            offered: self.columns.clone()?,
            work: self.ones(WORK)?,
        })?;
        requests.push(Request::Reopen)?;
        requests.push(Request::Frame {
            work: self.ones(WORK)?,
        })?;
        Ok(requests)
    }

    // Whether the first list was answered as the single calls answer: the first frame by 6, the put past the row by 3, the check not admitted,
    // all else granted.
    fn is_entered(&self, answers: &[Answer<F>]) -> bool {
        let [early, puts @ .., past, away, offered, reopened, framed] = answers else {
            return false;
        };
        let terms = self.row.polynomials().as_flattened().iter();
        is_framed(early, Err(DesignFault::AllZero))
            && puts.len() == terms.filter(|code| **code != 0).count()
            && puts.iter().all(|put| matches!(put, Answer::Put(Ok(()))))
            && matches!(past, Answer::Put(Err(DesignFault::NoSuchGenerator)))
            && self.is_turned_away(away)
            && self.is_offered(offered)
            && matches!(reopened, Answer::Reopen(Ok(())))
            && is_framed(framed, Ok(()))
    }

    // Whether the check on a draft was not admitted, and its block is handed back.
    fn is_turned_away(&self, answer: &Answer<F>) -> bool {
        match answer {
            Answer::NotAdmitted(Request::Check { block }) => same(block, &self.sent.block),
            _ => false,
        }
    }

    // Whether the second solver's columns were granted, and are handed back, with a work table that is zero.
    fn is_offered(&self, answer: &Answer<F>) -> bool {
        match answer {
            Answer::Offer {
                answer,
                offered,
                work,
            } => *answer == Ok(()) && same(offered, &self.columns) && all_are(work, 0),
            _ => false,
        }
    }

    // Whether the design stands framed as the single calls and the second solver frame it.
    fn stands(&self, design: &Design, tables: &Tables<F>) -> bool {
        match design {
            Design::Framed(framed) => {
                framed.columns() == self.framed.columns()
                    && frame_agrees(self.row, framed, &tables.frame)
                    && same(&tables.frame, &self.tables.frame)
                    && holds(&tables.generators, self.row.polynomials.as_flattened())
            }
            Design::Draft(_) => false,
        }
    }

    // Encodes, checks the block and the block with a hit, inverts, puts, reopens, and encodes.
    fn sending(&self) -> Result<Vec<Request<F>>, AllocError> {
        let encoding = Request::Encode {
            message: self.sent.message.clone()?,
            block: self.ones(self.sent.block.len())?,
        };
        let mut requests = vec![in self.heap; encoding]?;
        requests.push(Request::Check {
            block: self.sent.block.clone()?,
        })?;
        requests.push(Request::Check {
            block: self.sent.hit.clone()?,
        })?;
        requests.push(Request::Invert {
            block: self.sent.block.clone()?,
            message: self.ones(self.sent.back.len())?,
        })?;
        requests.push(Request::Put {
            i: 0,
            power: 0,
            code: 0,
        })?;
        requests.push(Request::Reopen)?;
        requests.push(Request::Encode {
            message: self.sent.message.clone()?,
            block: self.ones(1)?,
        })?;
        Ok(requests)
    }

    // Whether the second list was answered as the single calls answer: the put and the second encode not admitted.
    fn is_sent(&self, answers: &[Answer<F>]) -> bool {
        let [encoded, clean, told, inverted, put, reopened, late] = answers else {
            return false;
        };
        self.is_encoded(encoded)
            && is_checked(clean, self.sent.clean, &self.sent.block)
            && is_checked(told, self.sent.told, &self.sent.hit)
            && self.is_inverted(inverted)
            && matches!(
                put,
                Answer::NotAdmitted(Request::Put {
                    i: 0,
                    power: 0,
                    code: 0
                })
            )
            && matches!(reopened, Answer::Reopen(Ok(())))
            && matches!(late, Answer::NotAdmitted(Request::Encode { .. }))
    }

    // Whether encode answered as the single call, with the same block.
    fn is_encoded(&self, answer: &Answer<F>) -> bool {
        match answer {
            Answer::Encode {
                answer,
                message,
                block,
            } => {
                *answer == self.sent.encoded
                    && same(message, &self.sent.message)
                    && same(block, &self.sent.block)
            }
            _ => false,
        }
    }

    // Whether invert answered as the single call, with the same message.
    fn is_inverted(&self, answer: &Answer<F>) -> bool {
        match answer {
            Answer::Invert {
                answer,
                block,
                message,
            } => {
                *answer == self.sent.inverted
                    && same(block, &self.sent.block)
                    && same(message, &self.sent.back)
            }
            _ => false,
        }
    }

    // Whether the design is a draft of as many generators again, with a frame of zeros and the generators kept.
    fn is_reopened(&self, design: &Design, tables: &Tables<F>) -> bool {
        match design {
            Design::Draft(draft) => {
                draft.count() == self.row.n
                    && all_are(&tables.frame, 0)
                    && holds(&tables.generators, self.row.polynomials.as_flattened())
            }
            Design::Framed(_) => false,
        }
    }

    // Whether both lists, performed on tables of their own, answer and leave what the single calls do. A list for which there is no memory
    // differs.
    pub(crate) fn agrees(&self, mut tables: Tables<F>) -> Result<bool, AllocError> {
        let Ok(draft) = Draft::begin(self.row.n, &mut tables.generators) else {
            return Ok(false);
        };
        let Ok(Performed { design, answers }) = perform(
            self.heap,
            Design::Draft(draft),
            &mut tables.generators,
            &mut tables.frame,
            self.entering()?,
        ) else {
            return Ok(false);
        };
        let entered = self.is_entered(&answers) && self.stands(&design, &tables);
        let Ok(Performed { design, answers }) = perform(
            self.heap,
            design,
            &mut tables.generators,
            &mut tables.frame,
            self.sending()?,
        ) else {
            return Ok(false);
        };
        let sent = self.sent.agrees(self.row, self.framed) && self.is_sent(&answers);
        Ok(entered && sent && self.is_reopened(&design, &tables))
    }
}
