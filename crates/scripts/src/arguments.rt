// What follows a keyword.
ghost use Rattle.std.specs.Prelude.{◌≡◌, ℕ, List, [], ◌∷◌, MatchResult};
ghost use Rattle.scripts.specs.declared.arguments.Unread.TheVariants.{NoMemory};
ghost use Rattle.scripts.specs.declared.call.Keyword.TheVariants as key;
ghost use Rattle.scripts.specs.Meaning.{Numbers, Bytes, StartsWith, Fails, Taken};
ghost use Rattle.scripts.specs.Words.{words};

use crate::call::{Call, FieldName, Keyword};
use crate::number::{byte, number};
use crate::offer::offer;
use crate::words::{Parts, Words, first_word};
use std::alloc::{AllocError, AllocFailed, Global};

// Why no call was read.
#[derive(Clone, Copy)]
pub(crate) enum Unread {
    // The words are not what the keyword asks for.
    NoFit,
    NoMemory,
}

impl<T: Drop> From<AllocFailed<T>> for Unread {
    ghost from_gives = { λ _ r. r ≡ NoMemory };

    fn from(_refused: AllocFailed<T>) -> Unread {
        Unread::NoMemory
    }
}

// The numbers that the parts of a text write.
pub(crate) fn numbers<'a, P: Parts<'a>>(heap: Global, parts: P) -> Result<Vec<u32>, Unread>
    ensures { MatchResult result (λ v. Numbers (P.parts parts) v.items) (λ e. Fails e ((ns : List ℕ) × Numbers (P.parts parts) ns)) }
{
    let mut out = Vec::new(heap);
    for part in parts {
        let n = number(part).ok_or(Unread::NoFit)?;
        out.push(n)?;
    }
    Ok(out)
}

// The bytes that the words of a text write.
fn bytes(heap: Global, text: &[u8]) -> Result<Vec<u8>, Unread>
    ensures { MatchResult result (λ v. Bytes (words text.now) v.items) (λ e. Fails e ((ns : List ℕ) × Bytes (words text.now) ns)) }
{
    let mut out = Vec::new(heap);
    for word in Words(text) {
        let b = byte(word).ok_or(Unread::NoFit)?;
        out.push(b)?;
    }
    Ok(out)
}

// A call that takes no words.
fn bare(text: &[u8], call: Call) -> Result<Call, Unread>
    ensures { MatchResult result (λ c. (words text.now ≡ []) × (c ≡ call)) (λ e. Fails e (words text.now ≡ [])) }
{
    match first_word(text) {
        None => Ok(call),
        Some(_) => Err(Unread::NoFit),
    }
}

// One word, which names a field.
fn field(text: &[u8]) -> Result<Call, Unread>
    ensures { Taken key.Field (words text.now) result }
{
    let first = first_word(text).ok_or(Unread::NoFit)?;
    let name = FieldName::of(first.word).ok_or(Unread::NoFit)?;
    bare(first.rest, Call::Field(name))
}

// A number, and what follows it.
#[derive(Clone, Copy)]
struct Counted<'a> {
    n: u32,
    rest: &'a [u8],
}

// The number that a text has as its first word.
fn first_number<'a>(text: &'a [u8]) -> Result<Counted<'a>, Unread>
    ensures { MatchResult result (λ x. StartsWith (words text.now) x.n (words x.rest.now)) (λ e. Fails e ((n : ℕ) × (ws : List (List ℕ)) × StartsWith (words text.now) n ws)) }
{
    let first = first_word(text).ok_or(Unread::NoFit)?;
    let n = number(first.word).ok_or(Unread::NoFit)?;
    Ok(Counted {
        n,
        rest: first.rest,
    })
}

// One number. This and the next two stay apart: an array of N numbers would need a contract on N words, and be no shorter.
fn begin(text: &[u8]) -> Result<Call, Unread>
    ensures { Taken key.Begin (words text.now) result }
{
    let first = first_number(text)?;
    bare(first.rest, Call::Begin { n: first.n })
}

// Two numbers.
fn column(text: &[u8]) -> Result<Call, Unread>
    ensures { Taken key.Column (words text.now) result }
{
    let i = first_number(text)?;
    let j = first_number(i.rest)?;
    bare(j.rest, Call::Column { i: i.n, j: j.n })
}

// Three numbers.
fn put(text: &[u8]) -> Result<Call, Unread>
    ensures { Taken key.Put (words text.now) result }
{
    let i = first_number(text)?;
    let power = first_number(i.rest)?;
    let code = first_number(power.rest)?;
    let call = Call::Put {
        i: i.n,
        power: power.n,
        code: code.n,
    };
    bare(code.rest, call)
}

// A number, and then any.
fn invert(heap: Global, text: &[u8]) -> Result<Call, Unread>
    ensures { Taken key.Invert (words text.now) result }
{
    let first = first_number(text)?;
    let block = numbers(heap, Words(first.rest))?;
    Ok(Call::Invert {
        symbols: first.n,
        block,
    })
}

// The call that a keyword and the text after it mean.
pub(crate) fn arguments(heap: Global, keyword: Keyword, text: &[u8]) -> Result<Call, Unread>
    ensures { Taken keyword (words text.now) result }
{
    match keyword {
        Keyword::Field => field(text),
        Keyword::Begin => begin(text),
        Keyword::Put => put(text),
        Keyword::Frame => bare(text, Call::Frame),
        Keyword::Reopen => bare(text, Call::Reopen),
        Keyword::Column => column(text),
        Keyword::Encode => Ok(Call::Encode {
            message: numbers(heap, Words(text))?,
        }),
        Keyword::Check => Ok(Call::Check {
            block: numbers(heap, Words(text))?,
        }),
        Keyword::Invert => invert(heap, text),
        Keyword::Card => bare(text, Call::Card),
        Keyword::Read => Ok(Call::Read {
            bytes: bytes(heap, text)?,
        }),
        Keyword::Offer => offer(heap, text),
        Keyword::Show => bare(text, Call::Show),
    }
}
