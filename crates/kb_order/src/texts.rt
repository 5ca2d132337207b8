//! Sets of byte texts in order.

ghost use Rattle.std.specs.Prelude.{◌≡◌, ◌≢◌, ◌<◌, ◌^◌, ◌++◌, ◌∷◌, ◌↔◌, ℕ, List, [], IfOk, OnOk, length, option_map};
ghost use Rattle.std.specs.Bool.{IsTrue, OnTrue, OnFalse};
ghost use Rattle.std.specs.List.{Contains};
ghost use Rattle.kb_order.specs.Texts.{IsOrderedSet, IsPlace, IsRising};
ghost use Rattle.kb_order.specs.Sorting.{IsFalling, HasSameTexts, IsTaken};

use crate::NoMemory;
use kb_rows::Row;
use std::alloc::Global;
use std::marker::Model;

/// Byte texts in order, each once. Contracts see the list of them.
#[derive(Drop)]
pub struct TextSet {
    texts: Row<Row<u8>>,
}

impl Model for TextSet {
    ghost use Rattle.std.specs.Prelude.{List, ℕ, length, ◌^◌, ◌<◌};
    ghost use Rattle.kb_order.specs.Texts.{IsRising};

    ghost Value = { List (List ℕ) };

    ghost view = { λ set. set.texts };

    ghost invariant = { λ set. IsRising set.texts × (length set.texts < 2 ^ 32) };
}

/// The set of these texts, which may repeat. 2^32 different texts or more count as out of memory.
pub fn ordered_set(alloc: Global, texts: Vec<Row<u8>>) -> Result<TextSet, NoMemory>
    ensures set { IfOk result (λ set. IsOrderedSet texts.items set) }
    ensures only { IfOk result (λ set. (other : List (List ℕ)) → IsOrderedSet texts.items other → other ≡ set) }
{
    let mut texts = texts;
    sort_down(&mut texts);
    let distinct = distinct(alloc, texts)?;
    if distinct.len() > u32::MAX as usize {
        return Err(NoMemory);
    }
    Ok(TextSet {
        texts: Row::from_vec(distinct),
    })
}

impl TextSet {
    /// The texts in order.
    pub fn as_slice(&self) -> &[Row<u8>]
        ensures value { result.now ≡ self.now }
        ensures rises { IsRising self.now }
        ensures few { length self.now < 2 ^ 32 }
    {
        self.texts.as_slice()
    }

    /// Where a text stands in the order.
    pub fn place_of(&self, text: &[u8]) -> Option<u32>
        ensures { IsPlace self.now text.now result }
    {
        match search(self.texts.as_slice(), text) {
            Some(place) => Some(place as u32),
            None => None,
        }
    }
}

/// Where a text stands among texts in order.
fn search(texts: &[Row<u8>], text: &[u8]) -> Option<usize>
    requires { IsRising texts.now }
    ensures { IsPlace texts.now text.now result }
{
    texts
        .binary_search_by(|one: &Row<u8>| one.as_slice().cmp(text))
        .ok()
}

/// Sorts texts, the last one to the front.
fn sort_down(texts: &mut Vec<Row<u8>>)
    ensures same { HasSameTexts texts.new.items texts.old.items }
    ensures falls { IsFalling texts.new.items }
{
    texts.sort_unstable_by(|one: &Row<u8>, other: &Row<u8>| other.as_slice().cmp(one.as_slice()));
}

/// The texts in order, each once.
fn distinct(alloc: Global, texts: Vec<Row<u8>>) -> Result<Vec<Row<u8>>, NoMemory>
    requires { IsFalling texts.items }
    ensures { IfOk result (λ set. IsOrderedSet texts.items set.items) }
{
    let mut left = texts;
    let mut taken = Vec::new(alloc);
    while let Some(text) = left.pop() {
        take_in(&mut taken, text)?;
    }
    Ok(taken)
}

/// Puts a text behind the others, if it is not the last of them already.
fn take_in(taken: &mut Vec<Row<u8>>, text: Row<u8>) -> Result<(), NoMemory>
    ensures { OnOk result ((texts left : List (List ℕ)) → IsTaken texts taken.old.items (left ++ text ∷ [])
        → IsTaken texts taken.new.items left) }
{
    if !ends_with(taken.as_slice(), text.as_slice()) {
        taken.push(text)?;
    }
    Ok(())
}

/// Whether the last of the texts is this one.
fn ends_with(texts: &[Row<u8>], text: &[u8]) -> bool
    ensures last { OnTrue result (Contains texts.now text.now) }
    ensures other { OnFalse result ((front : List (List ℕ)) (last : List ℕ) → texts.now ≡ front ++ last ∷ [] → last ≢ text.now) }
{
    match texts.last() {
        Some(last) => last.as_slice() == text,
        None => false,
    }
}
