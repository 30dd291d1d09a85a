// The call that performs a list of requests, and the theorem on runs.
ghost use Rattle.std.specs.Prelude.{◌≡◌, IfOk, IfErr};
ghost use Rattle.fields.specs.Elements.{code_of};
ghost use Rattle.history.specs.Runs.{Performs};
ghost use Rattle.history.specs.Steps.{Step, SafeStep, Stands, held};

use crate::request::{Answer, Design, Request};
use crate::steps::perform_one;
use fields::field::Field;
use std::alloc::Global;

// A design after a list of requests, with the answer to each.
#[derive(Drop)]
pub struct Performed<F: Drop> {
    pub design: Design,
    pub answers: Vec<Answer<F>>,
}

// A design with requests for which there was no memory.
#[derive(Drop)]
pub struct Unperformed<F: Drop> {
    pub design: Design,
    pub requests: Vec<Request<F>>,
}

// Performs the requests in order, and answers each. Where memory for the answers is wanting, nothing is done.
pub fn perform<F: Field>(
    heap: Global,
    design: Design,
    generators: &mut [F],
    frame: &mut [F],
    requests: Vec<Request<F>>,
) -> Result<Performed<F>, Unperformed<F>>
    ensures run { IfOk result (λ p. Performs (Step F.ops F.member (code_of F.number F.member) F.order) requests.items (held design generators.old frame.old) p.answers.items (held p.design generators.new frame.new)) }
    ensures promises { IfOk result (λ p. Stands F.ops F.member design generators.old frame.old → Performs (SafeStep F.ops F.member (code_of F.number F.member) F.order) requests.items (held design generators.old frame.old) p.answers.items (held p.design generators.new frame.new)) }
    ensures unperformed { IfErr result (λ e. (e.design ≡ design) × (e.requests ≡ requests) × (generators.new ≡ generators.old) × (frame.new ≡ frame.old)) }
{
    let Ok(mut answers) = Vec::with_capacity(heap, requests.len()) else {
        return Err(Unperformed { design, requests });
    };
    let mut design = design;
    for request in requests {
        let stepped = perform_one(design, generators, frame, request);
        design = stepped.design;
        answers.push_reserved(stepped.answer);
    }
    Ok(Performed { design, answers })
}
