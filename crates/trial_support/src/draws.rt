// Numbers that look random, the same at every run. The sequence of `random` is another, of 16 bits a draw; how many answers the trials
// count, which is printed, depends on these draws.
ghost use Rattle.std.specs.Prelude.{◌≡◌, ◌-◌, ◌<◌, ◌≤◌};

use fields::field::Field;

#[derive(Drop)]
pub struct Draws {
    state: u64,
}

impl Draws {
    pub fn from_seed(seed: u64) -> Draws
        ensures { result.state ≡ seed }
    {
        Draws { state: seed }
    }

    // The next number below a bound, 0 where the bound is 0, so that a draw is always an answer.
    pub fn below(&mut self, bound: u32) -> u32
        ensures { result ≤ bound - 1 }
    {
        self.state = self
            .state
            .wrapping_mul(6_364_136_223_846_793_005)
            .wrapping_add(1_442_695_040_888_963_407);
        let drawn = (self.state >> 33).checked_rem(u64::from(bound));
        u32::try_from(drawn.unwrap_or(0)).unwrap_or(0)
    }

    // The next number below a bound, as a place.
    pub fn place(&mut self, bound: usize) -> usize
        ensures { result ≤ bound - 1 }
    {
        let Ok(bound) = u32::try_from(bound) else {
            return 0;
        };
        usize::try_from(self.below(bound)).unwrap_or(0)
    }

    // The code of any member.
    pub fn code<F: Field>(&mut self) -> u16
        ensures { result < F.order }
    {
        u16::try_from(self.below(F::size())).unwrap_or(0)
    }

    // The code of any member but zero.
    pub fn nonzero<F: Field>(&mut self) -> u16 {
        let code = self.below(F::size() - 1);
        u16::try_from(code + 1).unwrap_or(1)
    }
}
