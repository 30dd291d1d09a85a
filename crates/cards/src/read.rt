// Reading a card.
ghost use Rattle.std.specs.Prelude.{◌≡◌, ℕ, ◌+◌, ◌*◌, ◌<◌, ◌≤◌, List, length, Some, IfOk, MatchResult, MatchOption, OnOk};
ghost use Rattle.std.specs.Result.{result_err};
ghost use Rattle.fields.specs.Questions.{first_no};
ghost use Rattle.tables.specs.Places.{at, Cleared};
ghost use Rattle.tables.specs.declared.sizes.TheConstants.{HIGHEST, MAX_COUNT};
ghost use Rattle.cards.specs.declared.sizes.TheConstants.{HEADER, RECORD};
ghost use Rattle.cards.specs.declared.fault.CardFault.{CardFault};
ghost use Rattle.cards.specs.declared.fault.CardFault.TheVariants.{NoSuchRecord};
ghost use Rattle.cards.specs.Cards.{Term};
ghost use Rattle.cards.specs.Chains.{byte, code_at, record_start};
ghost use Rattle.cards.specs.Reading.{read_questions, record_questions, Entered, Stops, Gathered, Halted, Grants, Refuses};

use crate::fault::{CardFault, PlacedFault};
use crate::sizes::{HEADER, RECORD};
use design::draft::Draft;
use design::fault::DesignFault;
use fields::field::Field;
use tables::sizes::{GENERATORS, MAX_COUNT, WIDTH};

// What a record holds.
#[derive(Clone, Copy)]
pub struct Coefficient<F: Field> {
    power: usize,
    element: F,
}

// A card whose questions before the walk are answered yes.
#[derive(Clone, Copy)]
struct Card<'a> {
    bytes: &'a [u8],
    ghost sized: { length bytes.now ≡ HEADER + byte bytes.now 1 + RECORD * byte bytes.now 2 },
    ghost low: { 2 ≤ byte bytes.now 1 },
    ghost high: { byte bytes.now 1 ≤ MAX_COUNT },
}

impl<'a> Card<'a> {
    // Asks what can be asked before the walk.
    fn parse<F: Field>(bytes: &'a [u8], long: usize) -> Result<Card<'a>, CardFault>
        ensures answer { result_err result ≡ first_no (read_questions F.tag long bytes.now) }
        ensures value { IfOk result (λ card. card.bytes.now ≡ bytes.now) }
        ensures room { OnOk result (long ≡ GENERATORS) }
    {
        if long != GENERATORS {
            return Err(DesignFault::TableLength.into());
        }
        let [kind, n, m, ..] = bytes else {
            return Err(CardFault::Length);
        };
        if bytes.len() != HEADER + usize::from(*n) + RECORD * usize::from(*m) {
            return Err(CardFault::Length);
        }
        if *kind != F::kind() {
            return Err(CardFault::Kind);
        }
        if !(2..=MAX_COUNT).contains(&usize::from(*n)) {
            return Err(CardFault::GeneratorCount);
        }
        Ok(Card { bytes })
    }

    // How many generators it has.
    fn n(&self) -> usize
        ensures { result ≡ byte self.now.bytes.now 1 }
    {
        usize::from(self.bytes[1])
    }

    // How many records it has.
    fn m(&self) -> usize
        ensures { result ≡ byte self.now.bytes.now 2 }
    {
        usize::from(self.bytes[2])
    }

    // Where the record starts that the link at a place names, if it names one.
    fn linked(&self, place: usize) -> Result<Option<usize>, CardFault>
        requires { place < length self.now.bytes.now }
        ensures { MatchResult result (λ named. MatchOption named (byte self.now.bytes.now place ≡ 0) (λ start. (1 ≤ byte self.now.bytes.now place) × (byte self.now.bytes.now place ≤ byte self.now.bytes.now 2) × (start ≡ record_start self.now.bytes.now place))) (λ f. (byte self.now.bytes.now 2 < byte self.now.bytes.now place) × (f ≡ NoSuchRecord place)) }
    {
        let link = usize::from(self.bytes[place]);
        if link > self.m() {
            return Err(CardFault::NoSuchRecord { place });
        }
        let Some(before) = link.checked_sub(1) else {
            return Ok(None);
        };
        Ok(Some(HEADER + self.n() + RECORD * before))
    }

    // Reads the record that starts at a place. In its chain it may stand where its power is at least the floor.
    fn coefficient<F: Field>(&self, start: usize, floor: usize) -> Result<Coefficient<F>, CardFault>
        requires { start + RECORD ≤ length self.now.bytes.now }
        ensures answer { result_err result ≡ first_no (record_questions F.order self.now.bytes.now floor start) }
        ensures value { IfOk result (λ x. (x.power ≡ byte self.now.bytes.now start) × (F.number (F.member x.element) ≡ code_at self.now.bytes.now (start + 1))) }
        ensures low { IfOk result (λ x. x.power ≤ HIGHEST) }
    {
        let power = usize::from(self.bytes[start]);
        if power >= WIDTH {
            return Err(CardFault::PowerTooHigh { place: start });
        }
        if power < floor {
            return Err(CardFault::PowerNotAbove { place: start });
        }
        let place = start + 1;
        let code = u16::from_le_bytes([self.bytes[place], self.bytes[place + 1]]);
        let element = F::element(u32::from(code)).map_err(|fault| PlacedFault { fault, place })?;
        if code == 0 {
            return Err(CardFault::ZeroCode { place });
        }
        Ok(Coefficient { power, element })
    }
}

// Walks the chain that the link at a place enters, its powers from the floor on, and enters its terms into a row, which was zero.
fn read_chain<F: Field>(
    card: &Card,
    place: usize,
    floor: usize,
    row: &mut [F],
) -> Result<(), CardFault>
    requires within { place < length card.now.bytes.now }
    requires room { length row.old ≡ WIDTH }
    requires zeros { (k : ℕ) → k < WIDTH → F.number (at F.ops F.member row.old k) ≡ 0 }
    ensures { MatchResult result (λ _. Entered F.ops F.member F.number F.order card.now.bytes.now floor place 0 row.old row.new) (λ f. (ts : List Term) × Stops F.order card.now.bytes.now ts floor place f) }
{
    let Some(start) = card.linked(place)? else {
        return Ok(());
    };
    let term = card.coefficient::<F>(start, floor)?;
    read_chain(card, start + (RECORD - 1), term.power + 1, row)?;
    row[term.power] = term.element;
    Ok(())
}

// Walks the chains of all heads, and enters their terms into a table, which was zero.
fn read_chains<F: Field>(card: &Card, table: &mut [F]) -> Result<(), CardFault>
    requires room { length table.old ≡ GENERATORS }
    requires cleared { Cleared F.ops F.member table.old }
    ensures { MatchResult result (λ _. Gathered F.ops F.member F.number F.order card.now.bytes.now (byte card.now.bytes.now 1) table.new) (λ f. Halted F.order card.now.bytes.now f) }
{
    // Rows by ranges: of a table lent out by `chunks_exact_mut`, a proof knows the length alone when it is given back.
    for i in 0..card.n() {
        let row = &mut table[WIDTH * i..WIDTH * (i + 1)];
        read_chain(card, HEADER + i, 0, row)?;
    }
    Ok(())
}

// Walks a card in a table of its own that is zero, and takes its design over.
fn take_design<F: Field>(
    card: &Card,
    table: &mut [F],
    generators: &mut [F],
) -> Result<Draft, CardFault>
    requires room { (length table.old ≡ GENERATORS) × (length generators.old ≡ GENERATORS) }
    requires cleared { Cleared F.ops F.member table.old }
    ensures { MatchResult result (λ d. (d.n ≡ byte card.now.bytes.now 1) × Gathered F.ops F.member F.number F.order card.now.bytes.now (byte card.now.bytes.now 1) generators.new) (λ f. Halted F.order card.now.bytes.now f × (generators.new ≡ generators.old)) }
{
    read_chains(card, table)?;
    let draft = Draft::begin(card.n(), generators)?;
    generators.copy_from_slice(table);
    Ok(draft)
}

// Reads a card: gives its draft, and writes its generators, zero off the terms.
pub fn read_card<F: Field>(card: &[u8], generators: &mut [F]) -> Result<Draft, CardFault>
    ensures answer { MatchResult result (λ d. Grants F.ops F.member F.number F.order F.tag card.now (length generators.old) d.n generators.new) (λ f. Refuses F.order F.tag card.now (length generators.old) f × (generators.new ≡ generators.old)) }
    ensures only { (g : CardFault) → Refuses F.order F.tag card.now (length generators.old) g → result_err result ≡ Some g }
{
    let parsed = Card::parse::<F>(card, generators.len())?;
    let mut table = [F::zero(); GENERATORS];
    take_design(&parsed, &mut table, generators)
}
