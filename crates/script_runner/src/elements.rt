// Numbers of a script as elements.
ghost use Rattle.std.specs.Prelude.{◌≡◌, length, IfOk, MatchResult};
ghost use Rattle.scripts.specs.Meaning.{Each};
ghost use Rattle.script_runner.specs.Elements.{Meant, Unmeant};

use crate::stopped::Stopped;
use fields::field::Field;
use std::alloc::{AllocError, Global};

// A table of so many zeros.
pub fn zeros<F: Field>(heap: Global, n: usize) -> Result<Vec<F>, AllocError>
    ensures { IfOk result (λ v. length v.items ≡ n) }
{
    Ok(vec![in heap; F::zero(); n]?)
}

// The elements of codes.
pub fn elements<F: Field>(heap: Global, codes: &[u32]) -> Result<Vec<F>, Stopped>
    ensures { MatchResult result (λ v. Each (Meant F.number F.member F.order) codes.now v.items) (Unmeant F.order codes.now) }
{
    let mut out = Vec::new(heap);
    for code in codes {
        let x = F::element(*code)?;
        out.push(x)?;
    }
    Ok(out)
}
