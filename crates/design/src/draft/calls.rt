// The calls on a draft.
ghost use Rattle.std.specs.Prelude.{◌≡◌, length, MatchResult};
ghost use Rattle.std.specs.Result.{result_err};
ghost use Rattle.fields.specs.Elements.{code_of};
ghost use Rattle.fields.specs.Questions.{first_no};
ghost use Rattle.tables.specs.Places.{Cleared};
ghost use Rattle.design.specs.Drafts.{begin_questions, Puts};

use crate::draft::Draft;
use crate::fault::DesignFault;
use fields::field::Field;
use tables::sizes::{GENERATORS, MAX_COUNT, WIDTH};

impl Draft {
    // Begins a design of n generators, all zero.
    pub fn begin<F: Field>(n: usize, generators: &mut [F]) -> Result<Draft, DesignFault>
        ensures answer { result_err result ≡ first_no (begin_questions n (length generators.old)) }
        ensures table { MatchResult result (λ d. (d.n ≡ n) × Cleared F.ops F.member generators.new) (λ _. generators.new ≡ generators.old) }
    {
        if generators.len() != GENERATORS {
            return Err(DesignFault::TableLength);
        }
        if !(2..=MAX_COUNT).contains(&n) {
            return Err(DesignFault::GeneratorCount);
        }
        tables::clear(generators);
        Ok(Draft { n })
    }

    // Writes the element of a code as a power of generator i.
    pub fn put<F: Field>(
        &self,
        generators: &mut [F],
        i: usize,
        power: usize,
        code: u32,
    ) -> Result<(), DesignFault>
        ensures { Puts (code_of F.number F.member) F.order self.now.n i power code generators.old result generators.new }
    {
        if generators.len() != GENERATORS {
            return Err(DesignFault::TableLength);
        }
        if i >= self.n {
            return Err(DesignFault::NoSuchGenerator);
        }
        if power >= WIDTH {
            return Err(DesignFault::PowerTooHigh);
        }
        generators[WIDTH * i + power] = F::element(code)?;
        Ok(())
    }
}
