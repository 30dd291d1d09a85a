// Numbers that look random, the same on every run, for tests and measurements.
#![tactic(auto)]

ghost use Rattle.std.specs.Prelude.{◌≡◌, ◌<◌, length, map};
ghost use Rattle.random.specs.Sequences.{next, later, drawn, draws};

use fields::field::Field;

// A linear congruential sequence.
#[derive(Clone, Copy)]
pub struct Random {
    state: u32,
}

impl Random {
    pub fn seeded(seed: u32) -> Random
        ensures { result.state ≡ seed }
    {
        Random { state: seed }
    }

    // The next number below a size.
    pub fn below(&mut self, size: u32) -> u32
        requires { 0 < size }
        ensures range { result < size }
        ensures state { self.new.state ≡ next self.old.state }
        ensures value { result ≡ drawn size self.new.state }
    {
        self.state = self
            .state
            .wrapping_mul(1_664_525)
            .wrapping_add(1_013_904_223);
        (self.state >> 16) % size
    }

    // The next element.
    fn element<F: Field>(&mut self) -> F
        ensures state { self.new.state ≡ next self.old.state }
        ensures value { F.number (F.member result) ≡ drawn F.order self.new.state }
    {
        F::element(self.below(F::size())).unwrap_or(F::zero())
    }

    // Fills a table with the next elements.
    pub fn fill<F: Field>(&mut self, table: &mut [F])
        ensures state { self.new.state ≡ later (length table.new) self.old.state }
        ensures codes { map (λ x. F.number (F.member x)) table.new ≡ draws F.order (length table.new) self.old.state }
    {
        for x in table {
            *x = self.element();
        }
    }
}
