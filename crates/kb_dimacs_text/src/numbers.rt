//! Numbers as words.
ghost use Rattle.std.specs.Prelude.{◌≡◌, ◌<◌, ◌^◌, ◌↔◌, ℕ, ℤ, pos, map, MatchOption, IsTrue};
ghost use Rattle.std.specs.Int.RustNames.{FitsSigned};
ghost use mir.Syntax.{w32};
ghost use Rattle.kb_chain.specs.Literal.{literal_of};
ghost use Rattle.kb_dimacs_text.specs.Numbers.{SpellsDimacsNumber};
ghost use Rattle.kb_dimacs_text.specs.Dimacs.{IsLiteral, SpellsHeader};

use kb_chain::Lit;

/// The number that a word spells, if it has 32 bits.
pub fn read_number(word: &[u8]) -> Option<i32>
    ensures { MatchOption result
        ((number : ℤ) → FitsSigned w32 number → SpellsDimacsNumber number word.now → ⊥)
        (λ number. FitsSigned w32 number × SpellsDimacsNumber number word.now) }
{
    let Ok(text) = str::from_utf8(word) else {
        return None;
    };
    text.parse().ok()
}

/// The literal of a number, if its variable is at most `vars`.
pub fn literal_within(vars: u32, number: i32) -> Option<Lit>
    requires { vars < 2 ^ 31 }
    ensures { MatchOption result (IsLiteral vars number → ⊥) (λ l. (l ≡ literal_of number) × IsLiteral vars number) }
{
    let Some(literal) = Lit::from_number(number) else {
        return None;
    };
    if literal.variable() > vars {
        return None;
    }
    Some(literal)
}

/// The number that a word spells, if it is below 2^31 and not negative.
fn read_count(word: &[u8]) -> Option<u32>
    ensures { MatchOption result
        ((number : ℕ) → number < 2 ^ 31 → SpellsDimacsNumber (pos number) word.now → ⊥)
        (λ number. (number < 2 ^ 31) × SpellsDimacsNumber (pos number) word.now) }
{
    let Some(number) = read_number(word) else {
        return None;
    };
    if number < 0 {
        return None;
    }
    Some(number.unsigned_abs())
}

/// How many variables and clauses a header announces.
pub fn read_header(words: &[&[u8]]) -> Option<(u32, u32)>
    ensures { MatchOption result
        ((vars count : ℕ) → SpellsHeader vars count (map (λ w. w.now) words.now) → ⊥)
        (λ header. SpellsHeader header.0 header.1 (map (λ w. w.now) words.now)) }
{
    let [first, second, vars, count] = words else {
        return None;
    };
    if !is_word(first, b"p") {
        return None;
    }
    if !is_word(second, b"cnf") {
        return None;
    }
    let Some(vars) = read_count(vars) else {
        return None;
    };
    let Some(count) = read_count(count) else {
        return None;
    };
    Some((vars, count))
}

fn is_word(word: &[u8], text: &[u8]) -> bool
    ensures { IsTrue result ↔ (word.now ≡ text.now) }
{
    word == text
}
