// Answers as text.
use fields::fault::{Refusal, RefusalText};
use fields::field::Field;
use history::request::Answer;
use std::fmt;
use texts::list::SymbolsText;
use texts::verdict::VerdictText;

// What a call gives where it is granted, with its answer.
#[derive(Drop)]
struct OutcomeText<'a, T: fmt::Display, E: Refusal + fmt::Display>(T, &'a Result<(), E>);

impl<T: fmt::Display, E: Refusal + fmt::Display> fmt::Display for OutcomeText<'_, T, E> {
    fn fmt<W: fmt::Write>(&self, f: &mut fmt::Formatter<W>) -> fmt::Result {
        match self.1 {
            Ok(_) => self.0.fmt(f),
            Err(fault) => RefusalText { fault }.fmt(f),
        }
    }
}

// An answer, in a few words.
#[derive(Drop)]
pub struct AnswerText<'a, F: Field> {
    pub answer: &'a Answer<F>,
}

impl<F: Field> fmt::Display for AnswerText<'_, F> {
    fn fmt<W: fmt::Write>(&self, f: &mut fmt::Formatter<W>) -> fmt::Result {
        match self.answer {
            Answer::Put(answer) => OutcomeText("written", answer).fmt(f),
            Answer::Frame { answer, .. } | Answer::Offer { answer, .. } => {
                OutcomeText("framed", answer).fmt(f)
            }
            Answer::Reopen(answer) => OutcomeText("reopened", answer).fmt(f),
            Answer::Encode { answer, block, .. } => {
                OutcomeText(SymbolsText { symbols: block }, answer).fmt(f)
            }
            Answer::Invert {
                answer,
                message,
                ..
            } => OutcomeText(SymbolsText { symbols: message }, answer).fmt(f),
            Answer::Check { answer, .. } => match answer {
                Ok(clean) => VerdictText(*clean).fmt(f),
                Err(fault) => RefusalText { fault }.fmt(f),
            },
            Answer::NotAdmitted(_) => write!(f, "not admitted"),
        }
    }
}
