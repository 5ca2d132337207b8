//! The words of a line, and the values that they spell.
ghost use Rattle.std.specs.Prelude.{◌≡◌, IfOk};
ghost use Rattle.std.specs.List.{list_all};
ghost use Rattle.kb_grammar.specs.Lines.{IsRead};
ghost use Rattle.kb_test_lines.specs.Words.{SpellsReference, SpellsWord, SpellsWordBehind, SpellsWords, is_below, word_below, words_below};

use crate::NoMemory;
use kb_grammar::{behind, first_part, is_line, last_number, read_int};
use kb_heap::Row;
use std::alloc::Global;

/// An object by its kind and its number among its kind.
#[derive(Clone, Copy)]
pub enum Reference {
    Input(u32),
    Literal(u32),
    /// An object that the run has made.
    Made(u32),
}

/// A value as a text writes it.
#[derive(Clone, Copy)]
pub enum Word {
    Int(i32),
    Null,
    Object(Reference),
}

/// Above the numbers that objects of each kind may have.
#[derive(Clone, Copy)]
pub struct Limits {
    pub inputs: usize,
    pub literals: usize,
    pub made: usize,
}

impl Limits {
    /// Whether the number of the object is below the limit of its kind.
    pub fn has_reference(self, reference: Reference) -> bool
        ensures { result ≡ is_below self reference }
    {
        match reference {
            Reference::Input(number) => (number as usize) < self.inputs,
            Reference::Literal(number) => (number as usize) < self.literals,
            Reference::Made(number) => (number as usize) < self.made,
        }
    }

    /// Whether the object that it names, if it names one, is below its limit.
    pub fn has_word(self, word: Word) -> bool
        ensures { result ≡ word_below self word }
    {
        match word {
            Word::Int(_) | Word::Null => true,
            Word::Object(reference) => self.has_reference(reference),
        }
    }

    /// Whether that is so of each word.
    pub fn has_words(self, words: &[Word]) -> bool
        ensures { result ≡ words_below self words.now }
    {
        let mut rest = words;
        while let [first, others @ ..] = rest {
            if !self.has_word(*first) {
                return false;
            }
            rest = others;
        }
        true
    }

    /// Whether that is so of each word of each list.
    pub fn has_lists(self, lists: &[Row<Word>]) -> bool
        ensures { result ≡ list_all (words_below self) lists.now }
    {
        let mut rest = lists;
        while let [first, others @ ..] = rest {
            if !self.has_words(first.as_slice()) {
                return false;
            }
            rest = others;
        }
        true
    }
}

#[tactic(auto, unfolding(crate::specs::Words::reference_text))]
pub(crate) fn read_reference(word: &[u8]) -> Option<Reference>
    ensures { IsRead SpellsReference word.now result }
{
    if let Some(number) = last_number(word, b"i") {
        return Some(Reference::Input(number));
    }
    if let Some(number) = last_number(word, b"s") {
        return Some(Reference::Literal(number));
    }
    Some(Reference::Made(last_number(word, b"n")?))
}

#[tactic(auto, unfolding(crate::specs::Words::word_text))]
pub(crate) fn read_word(word: &[u8]) -> Option<Word>
    ensures { IsRead SpellsWord word.now result }
{
    if is_line(word, b"null") {
        return Some(Word::Null);
    }
    if let Some(reference) = read_reference(word) {
        return Some(Word::Object(reference));
    }
    Some(Word::Int(read_int(word)?))
}

// A value behind that front.
pub(crate) fn word_behind(text: &[u8], front: &[u8]) -> Option<Word>
    ensures { IsRead (SpellsWordBehind front.now) text.now result }
{
    read_word(behind(text, front)?)
}

// The values that are spelled so, each with a space before it.
pub(crate) fn read_words(alloc: Global, text: &[u8]) -> Result<Option<Row<Word>>, NoMemory>
    ensures { IfOk result (IsRead SpellsWords text.now) }
{
    let mut words = Row::new(alloc);
    let mut rest = text;
    while let Some(others) = behind(rest, b" ") {
        let (word, left) = first_part(others, b' ');
        let Some(value) = read_word(word) else {
            return Ok(None);
        };
        words.push(value)?;
        rest = left;
    }
    if !rest.is_empty() {
        return Ok(None);
    }
    Ok(Some(words))
}
