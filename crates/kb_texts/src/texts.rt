//! Texts by their numbers.

ghost use Rattle.std.specs.Prelude.{◌≡◌, ℕ, [], Some, length, slice_get, IfOk, IfSome, IfNone, OnOk};
ghost use Rattle.std.specs.List.{list_any};
ghost use Rattle.std.specs.Option.{option_copied};
ghost use Rattle.std.specs.Str.{bytes_eq};
ghost use Rattle.kb_texts.specs.Texts.{with_text, Keeps, AreDistinct};

use crate::NoMemory;
use indexmap::IndexSet;
use std::alloc::Global;
use std::marker::Model;

/// Texts, each once, in the order in which they came. Contracts see the list of them.
#[derive(Drop)]
pub struct Texts {
    set: IndexSet<Vec<u8>>,
}

impl Model for Texts {
    ghost use Rattle.std.specs.Prelude.{List, ℕ, map};
    ghost use Rattle.kb_texts.specs.Texts.{AreDistinct};

    ghost Value = { List (List ℕ) };

    ghost view = { λ t. map (λ key. key.items) t.set.keys };

    ghost invariant = { λ t. AreDistinct (map (λ key. key.items) t.set.keys) };
}

impl Texts {
    /// No texts.
    pub fn new(alloc: Global) -> Texts
        ensures { result ≡ [] }
    {
        Texts {
            set: IndexSet::new(alloc),
        }
    }

    /// The place of a text, which goes to the end unless it is there.
    pub fn place(&mut self, alloc: Global, bytes: &[u8]) -> Result<usize, NoMemory>
        ensures texts { OnOk result (self.new ≡ with_text self.old bytes.now) }
        ensures place { IfOk result (λ place. slice_get self.new place ≡ Some bytes.now) }
        ensures distinct { AreDistinct self.new }
        ensures keeps { Keeps self.old self.new }
    {
        self.tell_distinct();
        let key = key_of(alloc, bytes)?;
        let (place, _) = self.set.insert_full(key)?;
        Ok(place)
    }

    /// The place of a text, if it is there.
    pub fn place_of(&self, bytes: &[u8]) -> Option<usize>
        ensures found { IfSome result (λ place. slice_get self.now place ≡ Some bytes.now) }
        ensures none { IfNone result ((place : ℕ) → slice_get self.now place ≡ Some bytes.now → ⊥) }
    {
        self.set.get_index_of(bytes)
    }

    /// Does nothing. That no text stands at two places is known of texts that are read.
    pub fn tell_distinct(&self)
        ensures { AreDistinct self.now }
    {
        let _ = &self.set;
    }

    /// How many texts there are.
    pub fn count(&self) -> usize
        ensures { result ≡ length self.now }
    {
        self.set.len()
    }

    /// Whether a text is there.
    pub fn has(&self, bytes: &[u8]) -> bool
        ensures { result ≡ list_any (bytes_eq bytes.now) self.now }
    {
        self.set.contains(bytes)
    }

    /// The text at a place, if there is one.
    pub fn get(&self, place: usize) -> Option<&[u8]>
        ensures { option_copied result ≡ slice_get self.now place }
    {
        match self.set.get_index(place) {
            Some(key) => Some(key.as_slice()),
            None => None,
        }
    }
}

/// The bytes, copied.
fn key_of(alloc: Global, bytes: &[u8]) -> Result<Vec<u8>, NoMemory>
    ensures { IfOk result (λ key. key.items ≡ bytes.now) }
{
    match bytes.to_vec(alloc) {
        Ok(key) => Ok(key),
        Err(_) => Err(NoMemory),
    }
}
