// A design over the tones with its tables, and the lists of requests that are performed on it.
use crate::answer::AnswerText;
use anyhow::anyhow;
use design::draft::Draft;
use history::perform::perform;
use history::request::{Answer, Design, Request};
use std::alloc::Global;
use std::fmt;
use tables::sizes::{FRAME, GENERATORS};
use tones::Tone;

// A design with the tables that it lends. The frame lies on the heap: a station moves through every call, and so long an array would
// be copied on the stack each time.
// `rt` is no field: a lifetime would stand on each `Station` and `Answered`, and no line would be saved.
#[derive(Drop)]
pub struct Station {
    pub design: Design,
    pub generators: [Tone; GENERATORS],
    pub frame: Vec<Tone>,
}

// A station after a list of requests, with the answer to each.
#[derive(Drop)]
pub struct Answered {
    pub station: Station,
    pub answers: Vec<Answer<Tone>>,
}

impl Station {
    // A new design of 2 generators.
    pub(crate) fn begin(heap: Global) -> anyhow::Result<Station> {
        let mut generators = [Tone::T0; GENERATORS];
        let Ok(draft) = Draft::begin(2, &mut generators) else {
            return Err(anyhow!("begin was refused"));
        };
        Ok(Station {
            design: Design::Draft(draft),
            generators,
            frame: vec![in heap; Tone::T0; FRAME]?,
        })
    }

    // Performs requests and prints each call with its answer.
    pub(crate) fn run<C: fmt::Display>(
        self,
        rt: &HostRuntime,
        calls: &[C],
        requests: Vec<Request<Tone>>,
    ) -> anyhow::Result<Answered> {
        let Station {
            design,
            mut generators,
            mut frame,
        } = self;
        let Ok(done) = perform(rt.alloc(), design, &mut generators, &mut frame, requests) else {
            return Err(anyhow!("no memory for the answers"));
        };
        for (call, answer) in calls.iter().zip(done.answers.iter()) {
            println!(rt; "  {call}: {}", AnswerText { answer })?;
        }
        Ok(Answered {
            station: Station {
                design: done.design,
                generators,
                frame,
            },
            answers: done.answers,
        })
    }
}
