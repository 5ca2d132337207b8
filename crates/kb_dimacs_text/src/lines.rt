//! Lines and their words.
ghost use Rattle.std.specs.Prelude.{◌≡◌, ◌<◌, ◌∷◌, [], map, length, IfOk, MatchOption};
ghost use Rattle.std.specs.List.{slice_split};
ghost use Rattle.kb_dimacs_text.specs.Lines.{is_white, is_comment, is_some_word, line_words, words};
ghost use Rattle.kb_dimacs_text.specs.Pieces.{separates};

use crate::NoMemory;
use std::alloc::Global;

/// What stands between the pieces of a text.
#[derive(Clone, Copy, PartialEq, Eq)]
pub enum Separator {
    LineFeed,
    White,
}

impl Separator {
    fn separates(self, byte: u8) -> bool
        ensures { result ≡ separates self byte }
    {
        match self {
            Separator::LineFeed => byte == b'\n',
            Separator::White => is_white(byte),
        }
    }
}

/// Whether a byte stands between words.
fn is_white(byte: u8) -> bool
    ensures { result ≡ is_white byte }
{
    byte == b' ' || (9 <= byte && byte <= 13)
}

fn is_comment(line: &[u8]) -> bool
    ensures { result ≡ is_comment line.now }
{
    matches!(line, [b'c', ..])
}

/// Whether a piece between white space is a word.
fn is_some_word(piece: &[u8]) -> bool
    ensures { result ≡ is_some_word piece.now }
{
    matches!(piece, [_, ..])
}

/// The first piece of a text, and what stands behind the separator that ends it, if one does.
pub fn cut(text: &[u8], separator: Separator) -> (&[u8], Option<&[u8]>)
    ensures { MatchOption result.1
        (slice_split (separates separator) text.now ≡ result.0.now ∷ [])
        (λ others. (slice_split (separates separator) text.now ≡ result.0.now ∷ slice_split (separates separator) others.now)
        × (length others.now < length text.now)) }
{
    for (at, byte) in text.iter().enumerate() {
        if separator.separates(*byte) {
            return (&text[..at], Some(&text[at + 1..]));
        }
    }
    (text, None)
}

/// The words of a line; a comment has none.
#[tactic(auto, unfolding(crate::specs::Lines::line_words))]
pub fn line_words(alloc: Global, line: &[u8]) -> Result<Vec<&[u8]>, NoMemory>
    ensures { IfOk result (λ found. map (λ w. w.now) found.items ≡ line_words line.now) }
{
    if is_comment(line) {
        return Ok(Vec::new(alloc));
    }
    words_of(alloc, line)
}

fn words_of(alloc: Global, line: &[u8]) -> Result<Vec<&[u8]>, NoMemory>
    ensures { IfOk result (λ found. map (λ w. w.now) found.items ≡ words line.now) }
{
    let mut found = Vec::new(alloc);
    let mut rest = Some(line);
    while let Some(text) = rest {
        let (piece, others) = cut(text, Separator::White);
        if is_some_word(piece) {
            found.push(piece)?;
        }
        rest = others;
    }
    Ok(found)
}
