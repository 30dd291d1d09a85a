// A draft: the generators of a design while they are entered.
ghost use Rattle.std.specs.Prelude.{◌≡◌, ◌≤◌};
ghost use Rattle.tables.specs.declared.sizes.TheConstants.{MAX_COUNT};

mod calls;

// What a design knows before it is framed. Made by a granted call, and moved, never copied.
#[derive(Drop)]
pub struct Draft {
    n: usize,
    ghost low: { 2 ≤ n },
    ghost high: { n ≤ MAX_COUNT },
}

impl Draft {
    // How many generators the design has.
    pub fn count(&self) -> usize
        ensures { result ≡ self.now.n }
    {
        self.n
    }

    // The draft of n generators.
    pub(crate) fn of(n: usize) -> Draft
        requires { (2 ≤ n) × (n ≤ MAX_COUNT) }
        ensures { result.n ≡ n }
    {
        Draft { n }
    }
}
