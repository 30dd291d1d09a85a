// A framed design: what is known of a design once its frame stands in the caller's table.
ghost use Rattle.std.specs.Prelude.{◌≡◌, ◌+◌, ◌*◌, ◌/◌, ◌%◌, ◌^◌, ◌≤◌};
ghost use Rattle.tables.specs.declared.sizes.TheConstants.{HIGHEST, MAX_COUNT};

use crate::draft::Draft;
use framing::Numbers;

mod calls;
mod frame;
mod offer;

// Numbers only, made by a granted call, and moved, never copied.
// The fields of `Numbers` stand here once more: the promises of the public calls name them one by one.
#[derive(Drop)]
pub struct Framed {
    // The number of generators.
    n: usize,
    // The degree of the generators divided by their divisor.
    degree: usize,
    // The degree of the divisor.
    divisor: usize,
    // The degrees of the columns: that of column j in bits 8 j to 8 j + 7, zero from n on. One number, since callers are given it as one.
    columns: u64,
    ghost low: { 2 ≤ n },
    ghost high: { n ≤ MAX_COUNT },
    ghost within: { degree + divisor ≤ HIGHEST },
}

impl Framed {
    // The framed design of a draft with the numbers of its frame.
    pub(crate) fn of(draft: Draft, numbers: Numbers) -> Framed
        requires { numbers.degree + numbers.divisor ≤ HIGHEST }
        ensures { (result.n ≡ draft.n) × ((result.degree ≡ numbers.degree) × ((result.divisor ≡ numbers.divisor) × (result.columns ≡ numbers.columns))) }
    {
        Framed {
            n: draft.count(),
            degree: numbers.degree,
            divisor: numbers.divisor,
            columns: numbers.columns,
        }
    }

    // How many generators the design has.
    pub fn generators(&self) -> usize
        ensures { result ≡ self.now.n }
    {
        self.n
    }

    // The degree of the generators divided by their divisor.
    pub fn degree(&self) -> usize
        ensures { result ≡ self.now.degree }
    {
        self.degree
    }

    // The degree of the divisor.
    pub fn divisor_degree(&self) -> usize
        ensures { result ≡ self.now.divisor }
    {
        self.divisor
    }

    // The degrees of the columns: that of column j in bits 8 j to 8 j + 7.
    pub fn columns(&self) -> u64
        ensures { result ≡ self.now.columns }
    {
        self.columns
    }
}
