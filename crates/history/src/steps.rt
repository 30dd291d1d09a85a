// One request.
// The two tables are handed on as they were lent. In a struct, each contract would say besides that both references stay, and each body
// would borrow both again before it lends them on: that is no shorter.
ghost use Rattle.std.specs.Prelude.{◌≡◌, Ok as Granted, Err as Refused, MatchResult};
ghost use Rattle.fields.specs.Elements.{code_of};
ghost use Rattle.history.specs.Steps.{Step, held};
ghost use Rattle.history.specs.declared.request.Design.TheVariants.{Draft as ADraft, Framed as AFramed};
ghost use Rattle.history.specs.declared.request.Request.TheVariants.{Reopen};

use crate::request::{Answer, Design, Request};
use design::draft::Draft;
use design::fault::{DesignFault, HandedBack};
use design::framed::Framed;
use fields::field::Field;
use link::calls::{check, encode, invert};

// A design after one request, with the answer.
#[derive(Drop)]
pub(crate) struct Stepped<F: Drop> {
    pub design: Design,
    pub answer: Answer<F>,
}

// The design that frame or offer leaves, with its answer: refused, the draft is back.
fn settle(made: Result<Framed, HandedBack<Draft>>) -> (Design, Result<(), DesignFault>)
    ensures { MatchResult made (λ x. (result.0 ≡ AFramed x) × (result.1 ≡ Granted tt)) (λ e. (result.0 ≡ ADraft e.design) × (result.1 ≡ Refused e.fault)) }
{
    match made {
        Ok(framed) => (Design::Framed(framed), Ok(())),
        Err(back) => (Design::Draft(back.design), Err(back.fault)),
    }
}

// Performs a request on a draft.
fn on_draft<F: Field>(
    draft: Draft,
    generators: &mut [F],
    frame: &mut [F],
    request: Request<F>,
) -> Stepped<F>
    ensures { Step F.ops F.member (code_of F.number F.member) F.order request (held (ADraft draft) generators.old frame.old) result.answer (held result.design generators.new frame.new) }
{
    match request {
        Request::Put { i, power, code } => {
            let answer = Answer::Put(draft.put(generators, i, power, code));
            Stepped {
                design: Design::Draft(draft),
                answer,
            }
        }
        Request::Frame { mut work } => {
            let (design, answer) = settle(draft.frame(generators, frame, &mut work));
            Stepped {
                design,
                answer: Answer::Frame { answer, work },
            }
        }
        Request::Offer { offered, mut work } => {
            let (design, answer) = settle(draft.offer(generators, &offered, frame, &mut work));
            Stepped {
                design,
                answer: Answer::Offer {
                    answer,
                    offered,
                    work,
                },
            }
        }
        other => Stepped {
            design: Design::Draft(draft),
            answer: Answer::NotAdmitted(other),
        },
    }
}

// Reopens a framed design. No other call goes from framed to draft, so it settles its own answer.
fn reopen_framed<F: Field>(framed: Framed, frame: &mut [F]) -> Stepped<F>
    ensures { (g : _) → Step F.ops F.member (code_of F.number F.member) F.order Reopen (held (AFramed framed) g frame.old) result.answer (held result.design g frame.new) }
{
    match framed.reopen(frame) {
        Ok(draft) => Stepped {
            design: Design::Draft(draft),
            answer: Answer::Reopen(Ok(())),
        },
        Err(back) => Stepped {
            design: Design::Framed(back.design),
            answer: Answer::Reopen(Err(back.fault)),
        },
    }
}

// Performs a request on a framed design.
fn on_framed<F: Field>(
    framed: Framed,
    generators: &[F],
    frame: &mut [F],
    request: Request<F>,
) -> Stepped<F>
    ensures { Step F.ops F.member (code_of F.number F.member) F.order request (held (AFramed framed) generators.now frame.old) result.answer (held result.design generators.now frame.new) }
{
    let answer = match request {
        Request::Reopen => return reopen_framed(framed, frame),
        Request::Encode { message, mut block } => Answer::Encode {
            answer: encode(&framed, generators, &message, &mut block),
            message,
            block,
        },
        Request::Check { block } => Answer::Check {
            answer: check(&framed, frame, &block),
            block,
        },
        Request::Invert { block, mut message } => Answer::Invert {
            answer: invert(&framed, frame, &block, &mut message),
            block,
            message,
        },
        other => Answer::NotAdmitted(other),
    };
    Stepped {
        design: Design::Framed(framed),
        answer,
    }
}

// Performs one request.
pub(crate) fn perform_one<F: Field>(
    design: Design,
    generators: &mut [F],
    frame: &mut [F],
    request: Request<F>,
) -> Stepped<F>
    ensures { Step F.ops F.member (code_of F.number F.member) F.order request (held design generators.old frame.old) result.answer (held result.design generators.new frame.new) }
{
    match design {
        Design::Draft(draft) => on_draft(draft, generators, frame, request),
        Design::Framed(framed) => on_framed(framed, generators, frame, request),
    }
}
