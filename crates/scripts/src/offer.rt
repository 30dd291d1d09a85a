// The columns of an offer.
ghost use Rattle.std.specs.Prelude.{◌≡◌, ℕ, ◌<◌, List, [], ◌∷◌, ◌++◌, length, MatchResult};
ghost use Rattle.scripts.specs.declared.call.Keyword.TheVariants as key;
ghost use Rattle.scripts.specs.Meaning.{Polynomial, Columns, Fails, Taken, bar};
ghost use Rattle.scripts.specs.Words.{words};

use crate::arguments::{Unread, numbers};
use crate::call::Call;
use crate::words::{Mark, Pieces, Words};
use std::alloc::Global;

// The numbers of a polynomial, which commas join.
fn polynomial(heap: Global, word: &[u8]) -> Result<Vec<u32>, Unread>
    ensures { MatchResult result (λ v. Polynomial word.now v.items) (λ e. Fails e ((ns : List ℕ) × Polynomial word.now ns)) }
{
    numbers(heap, Pieces::of(word, Mark::Comma))
}

// Whether a word is the bar between two columns.
fn is_bar(word: &[u8]) -> bool
    ensures { result ≡ bar word.now }
{
    word == b"|".as_slice()
}

// Puts a column behind those that are read, where it has a component.
fn close(read: &mut Vec<Vec<Vec<u32>>>, column: Vec<Vec<u32>>) -> Result<(), Unread>
    ensures { MatchResult result (λ _. (0 < length column.items) × (read.new.items ≡ read.old.items ++ column ∷ [])) (λ e. Fails e (0 < length column.items)) }
{
    if column.is_empty() {
        return Err(Unread::NoFit);
    }
    read.push(column)?;
    Ok(())
}

// The columns between the bars, with a component at least in each.
fn columns(heap: Global, text: &[u8]) -> Result<Vec<Vec<Vec<u32>>>, Unread>
    ensures { MatchResult result (λ v. Columns (words text.now) v.items) (λ e. Fails e ((cs : _) × Columns (words text.now) cs)) }
{
    let mut read = Vec::new(heap);
    let mut column = Vec::new(heap);
    for word in Words(text) {
        if is_bar(word) {
            close(&mut read, column)?;
            column = Vec::new(heap);
        } else {
            let component = polynomial(heap, word)?;
            column.push(component)?;
        }
    }
    close(&mut read, column)?;
    Ok(read)
}

// An offer of columns.
pub(crate) fn offer(heap: Global, text: &[u8]) -> Result<Call, Unread>
    ensures { Taken key.Offer (words text.now) result }
{
    let columns = columns(heap, text)?;
    Ok(Call::Offer { columns })
}
