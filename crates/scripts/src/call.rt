// The calls of a script.
ghost use Rattle.std.specs.Prelude.{◌≡◌, ℕ, List, MatchOption, ◌≢◌};
ghost use Rattle.std.specs.List.{Contains};
ghost use Rattle.scripts.specs.declared.call.FieldName.{FieldName as AField};
ghost use Rattle.scripts.specs.declared.call.Keyword.{Keyword as AKeyword};
ghost use Rattle.scripts.specs.Spelling.{spelled, named};

use std::fmt;

// What one word of a script spells.
trait Spelled: Copy {
    ghost spelling: { Self → List ℕ };

    // The word.
    fn spell(self) -> &'static str
        ensures { result.now ≡ spelling self };
}

// The value that a word spells, among all of its type. Most words spell none, which is no error: so `of` below, and no `TryFrom`.
fn spelled_by<S: Spelled>(all: &[S], word: &[u8]) -> Option<S>
    requires { (x : S) → Contains all.now x }
    ensures { MatchOption result ((x : S) → word.now ≢ S.spelling x) (λ x. word.now ≡ S.spelling x) }
{
    all.iter().copied().find(|x| word == x.spell().as_bytes())
}

// The fields that a script can name.
#[derive(Clone, Copy, PartialEq, Eq, Debug)]
pub enum FieldName {
    Tones,
    Nibbles,
    Bytes,
    TonePairs,
}

impl FieldName {
    const ALL: [FieldName; 4] = [
        FieldName::Tones,
        FieldName::Nibbles,
        FieldName::Bytes,
        FieldName::TonePairs,
    ];

    // The word that names the field.
    pub fn word(self) -> &'static str
        ensures { result.now ≡ named self }
    {
        match self {
            FieldName::Tones => "tones",
            FieldName::Nibbles => "nibbles",
            FieldName::Bytes => "bytes",
            FieldName::TonePairs => "tone-pairs",
        }
    }

    // The field that a word names.
    pub fn of(word: &[u8]) -> Option<FieldName>
        ensures { MatchOption result ((f : AField) → word.now ≢ named f) (λ f. word.now ≡ named f) }
    {
        spelled_by(&FieldName::ALL, word)
    }
}

impl Spelled for FieldName {
    ghost spelling = { named };

    fn spell(self) -> &'static str {
        self.word()
    }
}

impl fmt::Display for FieldName {
    fn fmt<W: fmt::Write>(&self, f: &mut fmt::Formatter<W>) -> fmt::Result {
        f.write_str(self.word())
    }
}

// The first word of a call.
#[derive(Clone, Copy, PartialEq, Eq, Debug)]
pub enum Keyword {
    Field,
    Begin,
    Put,
    Frame,
    Reopen,
    Column,
    Encode,
    Check,
    Invert,
    Card,
    Read,
    Offer,
    Show,
}

impl Keyword {
    const ALL: [Keyword; 13] = [
        Keyword::Field,
        Keyword::Begin,
        Keyword::Put,
        Keyword::Frame,
        Keyword::Reopen,
        Keyword::Column,
        Keyword::Encode,
        Keyword::Check,
        Keyword::Invert,
        Keyword::Card,
        Keyword::Read,
        Keyword::Offer,
        Keyword::Show,
    ];

    // The word itself.
    pub fn word(self) -> &'static str
        ensures { result.now ≡ spelled self }
    {
        match self {
            Keyword::Field => "field",
            Keyword::Begin => "begin",
            Keyword::Put => "put",
            Keyword::Frame => "frame",
            Keyword::Reopen => "reopen",
            Keyword::Column => "column",
            Keyword::Encode => "encode",
            Keyword::Check => "check",
            Keyword::Invert => "invert",
            Keyword::Card => "card",
            Keyword::Read => "read",
            Keyword::Offer => "offer",
            Keyword::Show => "show",
        }
    }

    // A line that begins with the keyword, by the names of what it takes.
    pub fn form(self) -> &'static str {
        match self {
            Keyword::Field => "field tones|nibbles|bytes|tone-pairs",
            Keyword::Begin => "begin N",
            Keyword::Put => "put I POWER CODE",
            Keyword::Frame => "frame",
            Keyword::Reopen => "reopen",
            Keyword::Column => "column I J",
            Keyword::Encode => "encode M0 M1 ..",
            Keyword::Check => "check V0 V1 ..",
            Keyword::Invert => "invert L V0 V1 ..",
            Keyword::Card => "card",
            Keyword::Read => "read B0 B1 ..",
            Keyword::Offer => "offer P00 P01 .. | P10 ..",
            Keyword::Show => "show",
        }
    }

    // The keyword that a word is.
    pub fn of(word: &[u8]) -> Option<Keyword>
        ensures { MatchOption result ((k : AKeyword) → word.now ≢ spelled k) (λ k. word.now ≡ spelled k) }
    {
        spelled_by(&Keyword::ALL, word)
    }
}

impl Spelled for Keyword {
    ghost spelling = { spelled };

    fn spell(self) -> &'static str {
        self.word()
    }
}

// A call, with its numbers as the script has them.
#[derive(Drop)]
pub enum Call {
    Field(FieldName),
    Begin { n: u32 },
    Put { i: u32, power: u32, code: u32 },
    Frame,
    Reopen,
    Column { i: u32, j: u32 },
    Encode { message: Vec<u32> },
    Check { block: Vec<u32> },
    Invert { symbols: u32, block: Vec<u32> },
    Card,
    Read { bytes: Vec<u8> },
    // Columns, their components, and of each the codes from power 0 up.
    Offer { columns: Vec<Vec<Vec<u32>>> },
    Show,
}
