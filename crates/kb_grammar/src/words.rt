//! Lines and the words in them.
ghost use Rattle.std.specs.Prelude.{◌≡◌, ◌↔◌, IsTrue, ℕ, List, ◌∷◌, ◌++◌, MatchOption};
ghost use Rattle.kb_grammar.specs.Lines.{Lacks, IsTail};

/// The parts before and behind the first such byte.
pub fn cut(text: &[u8], byte: u8) -> Option<(&[u8], &[u8])>
    ensures { MatchOption result (Lacks byte text.now) (λ parts. Lacks byte parts.0.now × (text.now ≡ parts.0.now ++ byte ∷ parts.1.now)) }
{
    for (at, found) in text.iter().enumerate() {
        if *found == byte {
            return Some((&text[..at], &text[at + 1..]));
        }
    }
    None
}

/// What stands before the first such byte, and the rest with that byte; the whole text, and nothing, where there is none.
pub fn first_part(text: &[u8], end: u8) -> (&[u8], &[u8])
    ensures part { Lacks end result.0.now }
    ensures rest { IsTail end result.1.now }
    ensures text { text.now ≡ result.0.now ++ result.1.now }
{
    match cut(text, end) {
        Some((part, _)) => (part, &text[part.len()..]),
        None => (text, &[]),
    }
}

/// Whether the line is that text.
pub fn is_line(line: &[u8], text: &[u8]) -> bool
    ensures { IsTrue result ↔ (line.now ≡ text.now) }
{
    line == text
}

/// What stands behind that front.
pub fn behind<'a>(text: &'a [u8], front: &[u8]) -> Option<&'a [u8]>
    ensures { MatchOption result ((rest : List ℕ) → text.now ≡ front.now ++ rest → ⊥) (λ rest. text.now ≡ front.now ++ rest.now) }
{
    text.strip_prefix(front)
}
