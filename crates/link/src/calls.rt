// The calls on the link. Each lends the framed design and its tables.
ghost use Rattle.std.specs.Prelude.{◌≡◌, ℕ, ◌+◌, ◌-◌, ◌*◌, ◌<◌, ◌≤◌, length, IfOk, MatchResult, OnOk};
ghost use Rattle.algebra.specs.Link.{Clean};
ghost use Rattle.algebra.specs.Series.{series};
ghost use Rattle.fields.specs.Questions.{first_no};
ghost use Rattle.frames.specs.Rows.{generator_in};
ghost use Rattle.framing.specs.Framing.{column_in};
ghost use Rattle.std.specs.Result.{result_err};
ghost use Rattle.tables.specs.Places.{at};
ghost use Rattle.link.specs.Blocks.{message_series, stream, Tells, Encoded, Inverted};
ghost use Rattle.link.specs.Guarantees.{EncodesMessage, TellsEncoded, BringsHome, OneSymbolChangesFew};
ghost use Rattle.link.specs.Questions.{link_questions, symbols_in};

use crate::fault::LinkFault;
use crate::products::Streams;
use design::fault::DesignFault;
use design::framed::Framed;
use fields::field::Field;
use tables::sizes::{FRAME, GENERATORS, MAX_COUNT, WIDTH};

// The longest message.
pub const SYMBOLS: usize = 4096;

// Asks the questions of a call: is its table exactly as long as it must be, is the divisor 1, do the symbols of the message and the
// length of the block fit the design.
fn ask(
    framed: &Framed,
    exact: usize,
    table: usize,
    symbols: usize,
    block: usize,
) -> Result<(), LinkFault>
    ensures answer { result_err result ≡ first_no (link_questions exact table framed.now.n framed.now.degree framed.now.divisor symbols block) }
    ensures lengths { OnOk result ((table ≡ exact) × (1 ≤ symbols) × (symbols ≤ SYMBOLS) × (block ≡ framed.now.n * (symbols + framed.now.degree))) }
{
    if table != exact {
        return Err(DesignFault::TableLength.into());
    }
    if framed.divisor_degree() != 0 {
        return Err(LinkFault::Divisor);
    }
    let n = framed.generators();
    let degree = framed.degree();
    if !(1..=SYMBOLS).contains(&symbols) || block != n * (symbols + degree) {
        return Err(LinkFault::Length);
    }
    Ok(())
}

// Writes the symbols of all streams at time t.
fn encode_time<F: Field>(generators: &[F], message: &Streams<F>, symbols: &mut [F], t: usize)
    requires table { (length generators.now ≡ GENERATORS) × (length symbols.old ≤ MAX_COUNT) }
    requires message { message.now.n ≡ 1 }
    ensures { (i : ℕ) → i < length symbols.old → at F.ops F.member symbols.new i ≡ (series F.ops).product (at F.ops F.member message.now.symbols.now) (generator_in F.ops F.member generators.now i) t }
{
    // The polynomial by its place: a proof knows nothing of what is written through `iter_mut` in a `zip` with the polynomials.
    for (i, symbol) in symbols.iter_mut().enumerate() {
        *symbol = message.coefficient(0, &generators[WIDTH * i..][..WIDTH], t);
    }
}

// Encodes a message: the symbol of stream i at time t is the coefficient of s^t in the message times generator i.
pub fn encode<F: Field>(
    framed: &Framed,
    generators: &[F],
    message: &[F],
    block: &mut [F],
) -> Result<(), LinkFault>
    ensures answer { result_err result ≡ first_no (link_questions GENERATORS (length generators.now) framed.now.n framed.now.degree framed.now.divisor (length message.now) (length block.old)) }
    ensures written { MatchResult result (λ _. Encoded F.ops F.member framed.now.n framed.now.degree generators.now message.now block.new) (λ _. block.new ≡ block.old) }
    ensures encodes { OnOk result (EncodesMessage F.ops F.member framed.now.n framed.now.degree generators.now message.now block.new) }
{
    ask(
        framed,
        GENERATORS,
        generators.len(),
        message.len(),
        block.len(),
    )?;
    let n = framed.generators();
    let sent = Streams {
        symbols: message,
        n: 1,
        times: message.len(),
    };
    // A proof knows the lengths of what `chunks_exact_mut` lent, and not what was written to it.
    for t in 0..sent.times + framed.degree() {
        encode_time(generators, &sent, &mut block[n * t..n * (t + 1)], t);
    }
    Ok(())
}

// Writes what inverting gives: the coefficients of the sum over the streams of stream i times component i of column 0.
pub fn invert<F: Field>(
    framed: &Framed,
    frame: &[F],
    block: &[F],
    message: &mut [F],
) -> Result<(), LinkFault>
    ensures answer { result_err result ≡ first_no (link_questions FRAME (length frame.now) framed.now.n framed.now.degree framed.now.divisor (length message.old) (length block.now)) }
    ensures written { MatchResult result (λ _. Inverted F.ops F.member framed.now.n frame.now block.now message.new) (λ _. message.new ≡ message.old) }
    ensures home { OnOk result (BringsHome F.ops F.member framed.now.n framed.now.degree frame.now block.now message.new) }
    ensures changes { OnOk result (OneSymbolChangesFew F.ops F.member framed.now.n frame.now block.now message.new) }
{
    ask(framed, FRAME, frame.len(), message.len(), block.len())?;
    let streams = Streams {
        symbols: block,
        n: framed.generators(),
        times: message.len() + framed.degree(),
    };
    for (k, symbol) in message.iter_mut().enumerate() {
        *symbol = streams.combination(frame, 0, k);
    }
    Ok(())
}

// Whether a block is clean: for each check column the sum over the streams of stream i times component i is zero.
pub fn check<F: Field>(framed: &Framed, frame: &[F], block: &[F]) -> Result<bool, LinkFault>
    ensures answer { result_err result ≡ first_no (link_questions FRAME (length frame.now) framed.now.n framed.now.degree framed.now.divisor (symbols_in framed.now.n framed.now.degree (length block.now)) (length block.now)) }
    ensures clean { IfOk result (Tells (Clean F.ops (framed.now.n - 1) (column_in F.ops F.member frame.now) (stream F.ops F.member framed.now.n block.now))) }
    ensures encoded { IfOk result (TellsEncoded F.ops F.member framed.now.n framed.now.degree (symbols_in framed.now.n framed.now.degree (length block.now)) frame.now block.now) }
    ensures found { (symbols : ℕ) → length block.now ≡ framed.now.n * (symbols + framed.now.degree) → symbols_in framed.now.n framed.now.degree (length block.now) ≡ symbols }
{
    let n = framed.generators();
    let times = block.len() / n;
    let symbols = times.saturating_sub(framed.degree());
    ask(framed, FRAME, frame.len(), symbols, block.len())?;
    let streams = Streams {
        symbols: block,
        n,
        times,
    };
    Ok(streams.is_clean(frame))
}
