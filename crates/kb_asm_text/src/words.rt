//! Lines as words.

ghost use Rattle.std.specs.Prelude.{◌≡◌, ◌∷◌, [], List, ℕ, IfOk, MatchOption};
ghost use Rattle.kb_asm_text.specs.Words.{IsOfWords};

use crate::NoMemory;
use kb_grammar::cut;
use kb_rows::Row;
use std::alloc::Global;

fn word_row(alloc: Global, word: &[u8]) -> Result<Row<u8>, NoMemory>
    ensures { IfOk result (λ row. row ≡ word.now) }
{
    match word.to_vec(alloc) {
        Ok(bytes) => Ok(Row::from_vec(bytes)),
        Err(_) => Err(NoMemory),
    }
}

/// The words of a line.
pub(crate) fn words_of(alloc: Global, line: &[u8]) -> Result<Row<Row<u8>>, NoMemory>
    ensures { IfOk result (λ words. IsOfWords words line.now) }
{
    let mut words = Row::new(alloc);
    let mut rest = line;
    while let Some((word, others)) = cut(rest, b' ') {
        words.push(word_row(alloc, word)?)?;
        rest = others;
    }
    words.push(word_row(alloc, rest)?)?;
    Ok(words)
}

/// The word, if there is one.
pub(crate) fn one_word(words: &[Row<u8>]) -> Option<&[u8]>
    ensures { MatchOption result ((a : List ℕ) → words.now ≡ a ∷ [] → ⊥) (λ word. words.now ≡ word.now ∷ []) }
{
    let [word] = words else {
        return None;
    };
    Some(word.as_slice())
}

/// Both words, if there are two.
pub(crate) fn two_words(words: &[Row<u8>]) -> Option<(&[u8], &[u8])>
    ensures { MatchOption result ((a b : List ℕ) → words.now ≡ a ∷ b ∷ [] → ⊥) (λ p. words.now ≡ p.0.now ∷ p.1.now ∷ []) }
{
    let [first, second] = words else {
        return None;
    };
    Some((first.as_slice(), second.as_slice()))
}

/// The words, if there are three.
pub(crate) fn three_words(words: &[Row<u8>]) -> Option<(&[u8], &[u8], &[u8])>
    ensures { MatchOption result ((a b c : List ℕ) → words.now ≡ a ∷ b ∷ c ∷ [] → ⊥) (λ p. words.now ≡ p.0.now ∷ p.1.now ∷ p.2.now ∷ []) }
{
    let [first, second, third] = words else {
        return None;
    };
    Some((first.as_slice(), second.as_slice(), third.as_slice()))
}

/// The words, if there are four.
pub(crate) fn four_words(words: &[Row<u8>]) -> Option<(&[u8], &[u8], &[u8], &[u8])>
    ensures { MatchOption result ((a b c d : List ℕ) → words.now ≡ a ∷ b ∷ c ∷ d ∷ [] → ⊥) (λ p. words.now ≡ p.0.now ∷ p.1.now ∷ p.2.now ∷ p.3.now ∷ []) }
{
    let [first, second, third, fourth] = words else {
        return None;
    };
    Some((
        first.as_slice(),
        second.as_slice(),
        third.as_slice(),
        fourth.as_slice(),
    ))
}

/// The words, if there are five.
pub(crate) fn five_words(words: &[Row<u8>]) -> Option<(&[u8], &[u8], &[u8], &[u8], &[u8])>
    ensures { MatchOption result ((a b c d e : List ℕ) → words.now ≡ a ∷ b ∷ c ∷ d ∷ e ∷ [] → ⊥) (λ p. words.now ≡ p.0.now ∷ p.1.now ∷ p.2.now ∷ p.3.now ∷ p.4.now ∷ []) }
{
    let [first, second, third, fourth, fifth] = words else {
        return None;
    };
    Some((
        first.as_slice(),
        second.as_slice(),
        third.as_slice(),
        fourth.as_slice(),
        fifth.as_slice(),
    ))
}

/// The first word and the others, if there is one.
pub(crate) fn first_word(words: &[Row<u8>]) -> Option<(&[u8], &[Row<u8>])>
    ensures { MatchOption result (words.now ≡ []) (λ p. words.now ≡ p.0.now ∷ p.1.now) }
{
    let [first, others @ ..] = words else {
        return None;
    };
    Some((first.as_slice(), others))
}
