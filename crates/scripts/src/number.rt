// Numbers in base ten.
ghost use Rattle.std.specs.Prelude.{ℕ, MatchOption};
ghost use Rattle.std.specs.Str.Parse.{IsNumeral};
ghost use Rattle.scripts.specs.Numbers.{Number, Byte};

// The number that a word writes, at most the largest of its type; none where the word is no number.
// No `parse`: a number above the largest is read as the largest, and a sign is refused.
pub fn number(word: &[u8]) -> Option<u32>
    ensures { MatchOption result (IsNumeral 10 word.now → ⊥) (λ n. Number word.now n) }
{
    if word.is_empty() {
        return None;
    }
    let mut n = 0u32;
    for b in word {
        let digit = char::from(*b).to_digit(10)?;
        n = n.saturating_mul(10).saturating_add(digit);
    }
    Some(n)
}

// The byte that a word writes; none where the word is no number, or one that is too large.
pub(crate) fn byte(word: &[u8]) -> Option<u8>
    ensures { MatchOption result ((n : ℕ) → Byte word.now n → ⊥) (λ n. Byte word.now n) }
{
    let n = number(word)?;
    u8::try_from(n).ok()
}
