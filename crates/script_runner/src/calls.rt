// The calls of a script, each answered by the text that is printed of it.
use crate::desk::Desk;
use crate::elements::{elements, zeros};
use crate::offered::offered;
use crate::stopped::{Reason, Stopped};
use crate::text::{CodesText, FrameText, GeneratorsText, StandingText};
use cards::read::read_card;
use cards::sizes::CARD;
use cards::write::write_card;
use design::draft::Draft;
use fields::field::Field;
use history::perform::perform;
use history::request::{Answer, Design, Request};
use link::calls::SYMBOLS;
use scripts::call::Call;
use std::alloc::AllocError;
use tables::sizes::{WIDTH, WORK};
use texts::list::{BytesText, SymbolsText};
use texts::verdict::VerdictText;

// How many symbols a table is made for where a call names so many: one more than SYMBOLS is refused as any larger number is.
fn lent(symbols: usize) -> usize {
    symbols.min(SYMBOLS + 1)
}

impl<F: Field> Desk<F> {
    // Where the design stands.
    fn standing(&self) -> Result<String, Stopped> {
        let standing = StandingText(self.design()?);
        Ok(format!(in self.heap; "{standing}")?)
    }

    fn begin(&mut self, n: u32) -> Result<String, Stopped> {
        let draft = Draft::begin(n as usize, &mut self.generators)?;
        self.design = Some(Design::Draft(draft));
        self.standing()
    }

    fn read(&mut self, card: &[u8]) -> Result<String, Stopped> {
        let draft = read_card(card, &mut self.generators)?;
        self.design = Some(Design::Draft(draft));
        self.standing()
    }

    // Performs a list of one request on the design.
    fn perform_one(&mut self, request: Request<F>) -> Result<Answer<F>, Stopped> {
        let requests = vec![in self.heap; request]?;
        let design = self.design.take().ok_or(Reason::NoDesign)?;
        let done = perform(
            self.heap,
            design,
            &mut self.generators,
            &mut self.frame,
            requests,
        )?;
        self.design = Some(done.design);
        let mut answers = done.answers;
        // One request has one answer.
        Ok(answers.pop().unwrap())
    }

    // What an answer grants.
    fn granted(&self, answer: &Answer<F>) -> Result<String, Stopped> {
        match answer {
            Answer::Put(answer) => {
                (*answer)?;
                Ok(format!(in self.heap; "put")?)
            }
            Answer::Frame { answer, .. } | Answer::Offer { answer, .. } | Answer::Reopen(answer) =>
                {
                    (*answer)?;
                    self.standing()
                }
            Answer::Encode { answer, block, .. } => {
                (*answer)?;
                let symbols = SymbolsText { symbols: block };
                Ok(format!(in self.heap; "block {symbols}")?)
            }
            Answer::Check { answer, .. } => {
                let verdict = VerdictText((*answer)?);
                Ok(format!(in self.heap; "{verdict}")?)
            }
            Answer::Invert {
                answer,
                message,
                ..
            } => {
                (*answer)?;
                let symbols = SymbolsText { symbols: message };
                Ok(format!(in self.heap; "message {symbols}")?)
            }
            Answer::NotAdmitted(_) => Err(Stopped::NotAdmitted(Reason::of(self.design()?))),
        }
    }

    // Performs a request, and says what its answer grants.
    fn ask(&mut self, request: Request<F>) -> Result<String, Stopped> {
        let answer = self.perform_one(request)?;
        self.granted(&answer)
    }

    fn frame(&mut self) -> Result<String, Stopped> {
        let work = zeros(self.heap, WORK)?;
        self.ask(Request::Frame { work })
    }

    fn column(&self, i: u32, j: u32) -> Result<String, Stopped> {
        let coefficients = self.framed()?.column(&self.frame, i as usize, j as usize)?;
        let codes = CodesText(coefficients);
        Ok(format!(in self.heap; "column {codes}")?)
    }

    fn encode(&mut self, codes: &[u32]) -> Result<String, Stopped> {
        let message = elements(self.heap, codes)?;
        let framed = self.framed()?;
        let length = framed
            .generators()
            .saturating_mul(lent(message.len()).saturating_add(framed.degree()));
        let block = zeros(self.heap, length)?;
        self.ask(Request::Encode { message, block })
    }

    fn check(&mut self, codes: &[u32]) -> Result<String, Stopped> {
        let block = elements(self.heap, codes)?;
        self.ask(Request::Check { block })
    }

    fn invert(&mut self, symbols: u32, codes: &[u32]) -> Result<String, Stopped> {
        let block = elements(self.heap, codes)?;
        let message = zeros(self.heap, lent(symbols as usize))?;
        self.ask(Request::Invert { block, message })
    }

    fn card(&self) -> Result<String, Stopped> {
        let mut buffer = [0u8; CARD];
        let length = write_card(self.draft()?, &self.generators, &mut buffer)?;
        let text = BytesText {
            bytes: &buffer[..length],
        };
        Ok(format!(in self.heap; "card {text}")?)
    }

    fn offer(&mut self, columns: &[Vec<Vec<u32>>]) -> Result<String, Stopped> {
        let offered = offered(self.heap, columns)?;
        let work = zeros(self.heap, WORK)?;
        self.ask(Request::Offer { offered, work })
    }

    // The generators of the design, and its frame where it has one.
    fn show(&self) -> Result<String, Stopped> {
        match self.design()? {
            Design::Draft(draft) => {
                let rows = GeneratorsText(&self.generators[..WIDTH * draft.count()]);
                Ok(format!(in self.heap; "{rows}")?)
            }
            Design::Framed(framed) => {
                let rows = GeneratorsText(&self.generators[..WIDTH * framed.generators()]);
                let frame = FrameText {
                    framed,
                    frame: &self.frame,
                };
                Ok(format!(in self.heap; "{rows}\n{frame}")?)
            }
        }
    }

    // Whether a call is admitted to the design.
    fn admitted(&self, call: &Call) -> Result<(), Reason> {
        match call {
            Call::Field(_) | Call::Begin { .. } | Call::Read { .. } | Call::Show => Ok(()),
            Call::Put { .. } | Call::Frame | Call::Card | Call::Offer { .. } => {
                self.draft()?;
                Ok(())
            }
            Call::Reopen
            | Call::Column { .. }
            | Call::Encode { .. }
            | Call::Check { .. }
            | Call::Invert { .. } => {
                self.framed()?;
                Ok(())
            }
        }
    }

    // Performs a call where it is admitted.
    fn answered(&mut self, call: &Call) -> Result<String, Stopped> {
        self.admitted(call)?;
        match call {
            Call::Field(name) => Ok(format!(in self.heap; "field {name}")?),
            Call::Begin { n } => self.begin(*n),
            Call::Put { i, power, code } => self.ask(Request::Put {
                i: *i as usize,
                power: *power as usize,
                code: *code,
            }),
            Call::Frame => self.frame(),
            Call::Reopen => self.ask(Request::Reopen),
            Call::Column { i, j } => self.column(*i, *j),
            Call::Encode { message } => self.encode(message),
            Call::Check { block } => self.check(block),
            Call::Invert { symbols, block } => self.invert(*symbols, block),
            Call::Card => self.card(),
            Call::Read { bytes } => self.read(bytes),
            Call::Offer { columns } => self.offer(columns),
            Call::Show => self.show(),
        }
    }

    // Performs a call, and says what is printed of it. Err: no memory.
    pub(crate) fn call(&mut self, call: &Call) -> Result<String, AllocError> {
        self.answered(call).or_else(|stopped| match stopped {
            Stopped::NoMemory => Err(AllocError),
            _ => format!(in self.heap; "{stopped}"),
        })
    }
}
