//! Numbers with one spelling each, read digit by digit: no leading zero, no `-0`, no number above its range.
ghost use Rattle.std.specs.Prelude.{◌≡◌, ℕ, List, ◌∷◌, ◌++◌, ◌<◌, ◌^◌, MatchOption};
ghost use Rattle.std.specs.Fmt.{decimal};
ghost use Rattle.kb_grammar.specs.Lines.{IsRead, IsTail};
ghost use Rattle.kb_grammar.specs.Numbers.{SpellsWithin, SpellsNumber, SpellsNumberBehind, SpellsInt, with_digit, with_digits};

use crate::words::{behind, cut, first_part};

// The number with one digit more behind it, if it stays within the limit.
fn with_digit(number: u32, byte: u8, limit: u32) -> Option<u32>
    ensures { result ≡ with_digit limit number byte }
{
    if !byte.is_ascii_digit() {
        return None;
    }
    let longer = number.checked_mul(10)?.checked_add(u32::from(byte - b'0'))?;
    if longer > limit {
        return None;
    }
    Some(longer)
}

fn of_digits(digits: &[u8], limit: u32) -> Option<u32>
    ensures { result ≡ with_digits limit 0 digits.now }
{
    let mut number = 0;
    let mut rest = digits;
    while let [digit, others @ ..] = rest {
        number = with_digit(number, *digit, limit)?;
        rest = others;
    }
    Some(number)
}

/// The number up to `limit` that the word spells.
pub fn number_within(word: &[u8], limit: u32) -> Option<u32>
    ensures { IsRead (SpellsWithin limit) word.now result }
{
    let [first, ..] = word else {
        return None;
    };
    if *first == b'0' {
        return if word.len() == 1 { Some(0) } else { None };
    }
    of_digits(word, limit)
}

/// The number of 32 bits that the word spells.
pub fn read_number(word: &[u8]) -> Option<u32>
    ensures { IsRead SpellsNumber word.now result }
{
    number_within(word, u32::MAX)
}

// The int that these digits spell without a `-` before them.
fn without_sign(digits: &[u8]) -> Option<i32>
    ensures { MatchOption result ((number : ℕ) → number < 2 ^ 31 → digits.now ≡ decimal number → ⊥) (λ number. SpellsInt number digits.now) }
{
    i32::try_from(read_number(digits)?).ok()
}

// The int that these digits spell with a `-` before them.
fn with_minus(digits: &[u8]) -> Option<i32>
    ensures { IsRead (λ number digits. SpellsInt number (45 ∷ digits)) digits.now result }
{
    let number = read_number(digits)?;
    if number == 0 {
        return None;
    }
    i32::try_from(-i64::from(number)).ok()
}

/// The int that the word spells, a negative one with a `-` before it.
pub fn read_int(word: &[u8]) -> Option<i32>
    ensures { IsRead SpellsInt word.now result }
{
    match word {
        [b'-', digits @ ..] => with_minus(digits),
        _ => without_sign(word),
    }
}

/// The number that stands behind that front, up to the end.
pub fn last_number(text: &[u8], front: &[u8]) -> Option<u32>
    ensures { IsRead (SpellsNumberBehind front.now) text.now result }
{
    read_number(behind(text, front)?)
}

/// The number that stands behind that front and before a space, and what stands behind the space.
pub fn number_behind<'a>(text: &'a [u8], front: &[u8]) -> Option<(u32, &'a [u8])>
    ensures { MatchOption result
        ((number : ℕ) (rest : List ℕ) → number < 2 ^ 32 → text.now ≡ front.now ++ (decimal number ++ 32 ∷ rest) → ⊥)
        (λ parts. (parts.0 < 2 ^ 32) × (text.now ≡ front.now ++ (decimal parts.0 ++ 32 ∷ parts.1.now))) }
{
    let (word, rest) = cut(behind(text, front)?, b' ')?;
    Some((read_number(word)?, rest))
}

/// The number that stands behind that front, and what stands behind it: nothing, or such a byte first.
pub fn number_before<'a>(text: &'a [u8], front: &[u8], end: u8) -> Option<(u32, &'a [u8])>
    requires { end < 48 }
    ensures { MatchOption result
        ((number : ℕ) (rest : List ℕ) → number < 2 ^ 32 → IsTail end rest → text.now ≡ front.now ++ (decimal number ++ rest) → ⊥)
        (λ parts. (parts.0 < 2 ^ 32) × IsTail end parts.1.now × (text.now ≡ front.now ++ (decimal parts.0 ++ parts.1.now))) }
{
    let (word, rest) = first_part(behind(text, front)?, end);
    Some((read_number(word)?, rest))
}
