//! The words of assembler texts that take no memory.

ghost use Rattle.std.specs.Prelude.{◌≡◌, ◌<◌, ℕ, ◌↔◌, IsTrue, MatchOption};
ghost use Rattle.kb_grammar.specs.Lines.{IsRead};
ghost use Rattle.kb_asm_text.specs.Tokens.{IsDigit, IsPair, SpellsByteHex, SpellsFlags, SpellsByteInt, SpellsShortInt};

use kb_grammar::{number_within, read_int};

/// The value of a digit in base 16, in lower case.
fn digit_value(letter: u8) -> Option<u8>
    ensures { MatchOption result ((digit : ℕ) → IsDigit digit letter → ⊥) (λ digit. IsDigit digit letter) }
{
    match letter {
        b'0'..=b'9' => Some(letter - b'0'),
        b'a'..=b'f' => Some(letter - b'a' + 10),
        _ => None,
    }
}

/// The byte of two digits.
fn pair_value(first: u8, second: u8) -> Option<u8>
    ensures { MatchOption result ((byte : ℕ) → IsPair byte first second → ⊥) (λ byte. IsPair byte first second) }
{
    let high = digit_value(first)?;
    let low = digit_value(second)?;
    Some(16 * high + low)
}

/// The byte that the word spells with two digits.
pub(crate) fn read_byte_hex(word: &[u8]) -> Option<u8>
    ensures { IsRead SpellsByteHex word.now result }
{
    let [first, second] = word else {
        return None;
    };
    pair_value(*first, *second)
}

/// The flags that the word spells with four digits.
pub(crate) fn read_flags(word: &[u8]) -> Option<u16>
    ensures { IsRead SpellsFlags word.now result }
{
    let [first, second, third, fourth] = word else {
        return None;
    };
    let high = pair_value(*first, *second)?;
    let low = pair_value(*third, *fourth)?;
    Some(256 * u16::from(high) + u16::from(low))
}

/// The int of one byte that the word spells.
pub(crate) fn read_byte_int(word: &[u8]) -> Option<i8>
    ensures { IsRead SpellsByteInt word.now result }
{
    i8::try_from(read_int(word)?).ok()
}

/// The int of two bytes that the word spells.
pub(crate) fn read_short_int(word: &[u8]) -> Option<i16>
    ensures { IsRead SpellsShortInt word.now result }
{
    i16::try_from(read_int(word)?).ok()
}
