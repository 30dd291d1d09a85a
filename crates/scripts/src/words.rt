// A text cut at its marks, and its words.
ghost use Rattle.std.specs.Prelude.{◌≡◌, ℕ, ◌<◌, ◌≤◌, true, false, List, [], ◌∷◌, length, take, drop, IfSome, MatchOption, slice_index};
ghost use Rattle.scripts.specs.declared.words.Mark.TheVariants.{Blank};
ghost use Rattle.std.specs.Iterator.{YieldsFirstRef, IsFinite, item_count};
ghost use Rattle.scripts.specs.Words.{marks, pieces, first_of, words, pieces_left, words_left};

// What parts of a text are cut apart by.
#[derive(Clone, Copy)]
pub enum Mark {
    // A blank, a tab or a carriage return.
    Blank,
    // |
    Bar,
    // A blank or a bar, which end a word.
    Break,
    // ,
    Comma,
    // #
    Hash,
    // The end of a line.
    Newline,
}

impl Mark {
    fn is(self, b: u8) -> bool
        ensures { result ≡ marks self b }
    {
        match self {
            Mark::Blank => matches!(b, b' ' | b'\t' | b'\r'),
            Mark::Bar => b == b'|',
            Mark::Break => matches!(b, b'|' | b' ' | b'\t' | b'\r'),
            Mark::Comma => b == b',',
            Mark::Hash => b == b'#',
            Mark::Newline => b == b'\n',
        }
    }
}

// How many bytes stand before the first mark.
fn before(text: &[u8], mark: Mark) -> usize
    ensures within { result ≤ length text.now }
    ensures none { (k : ℕ) → k < result → marks mark (slice_index text.now k) ≡ false }
    ensures here { result < length text.now → marks mark (slice_index text.now result) ≡ true }
{
    text.iter().position(|b| mark.is(*b)).unwrap_or(text.len())
}

// A text cut at its first mark: what stands before it, and what after, where there is one.
#[derive(Clone, Copy)]
pub struct Cut<'a> {
    pub piece: &'a [u8],
    pub rest: Option<&'a [u8]>,
}

// Cuts a text at its first mark.
pub fn cut_at<'a>(text: &'a [u8], mark: Mark) -> Cut<'a>
    ensures pieces { MatchOption result.rest (pieces (marks mark) text.now ≡ result.piece.now ∷ []) (λ x. pieces (marks mark) text.now ≡ result.piece.now ∷ pieces (marks mark) x.now) }
    ensures first { first_of (pieces (marks mark) text.now) ≡ result.piece.now }
    ensures within { length result.piece.now ≤ length text.now }
    ensures shorter { IfSome result.rest (λ x. length x.now < length text.now) }
{
    let (piece, after) = text.split_at(before(text, mark));
    Cut {
        piece,
        rest: after.get(1..),
    }
}

// How long the word is that a text begins with: a bar alone, or up to a blank or a bar.
fn word_length(text: &[u8]) -> usize
    requires some { 0 < length text.now }
    requires bare { marks Blank (slice_index text.now 0) ≡ false }
    ensures within { result ≤ length text.now }
    ensures some { 0 < result }
    ensures word { words text.now ≡ take result text.now ∷ words (drop result text.now) }
{
    if Mark::Bar.is(text[0]) {
        return 1;
    }
    before(text, Mark::Break)
}

// The first word of a text, and what follows it.
#[derive(Clone, Copy)]
pub struct First<'a> {
    pub word: &'a [u8],
    pub rest: &'a [u8],
}

// The first word of a text; none where the text is blank.
pub fn first_word<'a>(text: &'a [u8]) -> Option<First<'a>>
    ensures words { MatchOption result (words text.now ≡ []) (λ x. words text.now ≡ x.word.now ∷ words x.rest.now) }
    ensures shorter { IfSome result (λ x. length x.rest.now < length text.now) }
{
    let start = text.iter().position(|b| !Mark::Blank.is(*b))?;
    let (_, left) = text.split_at(start);
    let (word, rest) = left.split_at(word_length(left));
    Some(First { word, rest })
}

// An iterator over parts of a text, which ends.
pub(crate) trait Parts<'a>: Iterator<Item = &'a [u8]> + Drop {
    // The parts that are left.
    ghost parts: { Self → List (List ℕ) };

    ghost may: { (s : Self) → Self.can_next s };

    ghost ends: { (s : Self) → IsFinite (Self.remaining s) };

    ghost steps: { (s : Self) (r : _) (t : Self) → Self.next_gives s r t → YieldsFirstRef parts s r t };
}

// The pieces of a text that are left, which a mark cuts apart. A type of its own, and not std's `split`:
// a clause can name what is left of it.
#[derive(Clone, Copy)]
pub struct Pieces<'a> {
    pub left: Option<&'a [u8]>,
    pub mark: Mark,
}

impl<'a> Pieces<'a> {
    // The pieces of a whole text.
    pub fn of(text: &'a [u8], mark: Mark) -> Pieces<'a>
        ensures { pieces_left result ≡ pieces (marks mark) text.now }
    {
        Pieces {
            left: Some(text),
            mark,
        }
    }
}

impl<'a> Iterator for Pieces<'a> {
    type Item = &'a [u8];

    ghost next_gives = { YieldsFirstRef pieces_left };

    ghost remaining = { item_count pieces_left };

    fn next(&mut self) -> Option<&'a [u8]> {
        let cut = cut_at(self.left?, self.mark);
        self.left = cut.rest;
        Some(cut.piece)
    }
}

impl<'a> Parts<'a> for Pieces<'a> {
    ghost parts = { pieces_left };

    ghost may = { λ _. tt };

    ghost ends = { λ _. tt };

    ghost steps = { λ s r t h. h };
}

// The words of a text that are left.
#[derive(Clone, Copy)]
pub(crate) struct Words<'a>(pub(crate) &'a [u8]);

impl<'a> Iterator for Words<'a> {
    type Item = &'a [u8];

    ghost next_gives = { YieldsFirstRef words_left };

    ghost remaining = { item_count words_left };

    fn next(&mut self) -> Option<&'a [u8]> {
        let first = first_word(self.0)?;
        self.0 = first.rest;
        Some(first.word)
    }
}

impl<'a> Parts<'a> for Words<'a> {
    ghost parts = { words_left };

    ghost may = { λ _. tt };

    ghost ends = { λ _. tt };

    ghost steps = { λ s r t h. h };
}
