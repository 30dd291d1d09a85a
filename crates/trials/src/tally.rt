// Counts of what was tried and of what differed from what was expected.
#[derive(Clone, Copy, Default)]
pub struct Tally {
    pub tried: u64,
    pub differed: u64,
}

impl Tally {
    // Counts so many trials, each by its number; one that tells nothing is not counted.
    pub(crate) fn of<T: FnMut(u32) -> Option<bool>>(trials: u32, mut agrees: T) -> Tally
        requires { (state : T) (trial : _) → T.pre state trial }
    {
        let mut tally = Tally::default();
        for step in 0..trials {
            if let Some(agreed) = agrees(step) {
                tally.note(agreed);
            }
        }
        tally
    }

    // Counts one more trial.
    pub fn note(&mut self, agreed: bool) {
        self.tried = self.tried.saturating_add(1);
        self.differed = self.differed.saturating_add(u64::from(!agreed));
    }

    // Counts the trials of another tally.
    pub fn add(&mut self, other: Tally) {
        self.tried = self.tried.saturating_add(other.tried);
        self.differed = self.differed.saturating_add(other.differed);
    }
}
