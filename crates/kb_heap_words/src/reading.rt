//! The words are read, each in its one spelling.
ghost use Rattle.std.specs.Prelude.{◌≡◌, IfOk};
ghost use Rattle.kb_grammar.specs.Lines.{IsRead};
ghost use Rattle.kb_heap_words.specs.Words.{SpellsArray, SpellsClass, SpellsExact, SpellsPlace, SpellsBound};

use crate::NoMemory;
use kb_grammar::{cut, is_line, read_number};
use kb_heap::{Bound, Place};
use kb_names::{
    ExactType, JType, NameRefusal, NameTextRefusal, Spelling, TargetRefusal, read_name,
    read_target, read_type_as,
};
use kb_rows::Held;
use std::alloc::Global;

// The array type of that descriptor, by its component.
#[tactic(auto, unfolding(crate::specs::Words::exact_text))]
fn read_array(alloc: Global, word: &[u8]) -> Result<Option<ExactType>, NoMemory>
    ensures { IfOk result (IsRead SpellsArray word.now) }
{
    match read_type_as(alloc, Spelling::Escaped, word) {
        Ok(JType::Array(component)) => {
            Ok(Some(ExactType::Array(component.get().copied(alloc)?)))
        }
        Ok(_) | Err(NameRefusal::BadDescriptor(_)) => Ok(None),
        Err(NameRefusal::NoMemory) => Err(NoMemory),
    }
}

// The class of that name.
#[tactic(auto, unfolding(crate::specs::Words::exact_text))]
fn read_class(alloc: Global, word: &[u8]) -> Result<Option<ExactType>, NoMemory>
    ensures { IfOk result (IsRead SpellsClass word.now) }
{
    match read_name(alloc, word) {
        Ok(name) => {
            if name.is_empty() {
                return Ok(None);
            }
            Ok(Some(ExactType::Class(name)))
        }
        Err(NameTextRefusal::BadName(_)) => Ok(None),
        Err(NameTextRefusal::NoMemory) => Err(NoMemory),
    }
}

/// The exact type that the word spells: a class whose name is not empty, or an array of at most 255 dimensions.
pub fn read_exact(alloc: Global, word: &[u8]) -> Result<Option<ExactType>, NoMemory>
    ensures { IfOk result (IsRead SpellsExact word.now) }
{
    if let Some(array) = read_array(alloc, word)? {
        return Ok(Some(array));
    }
    read_class(alloc, word)
}

/// The method and the offset that the text spells.
#[tactic(auto, unfolding(crate::specs::Words::place_text))]
pub fn read_place(alloc: Global, text: &[u8]) -> Result<Option<Held<Place>>, NoMemory>
    ensures { IfOk result (IsRead SpellsPlace text.now) }
{
    let Some((word, digits)) = cut(text, b' ') else {
        return Ok(None);
    };
    let Some(at) = read_number(digits) else {
        return Ok(None);
    };
    match read_target(alloc, word) {
        Ok(method) => Ok(Some(Held::new(alloc, Place { method, at })?)),
        Err(TargetRefusal::BadTarget(_)) => Ok(None),
        Err(TargetRefusal::NoMemory) => Err(NoMemory),
    }
}

/// The bound that the word names.
#[tactic(auto, unfolding(crate::specs::Words::bound_name))]
pub fn read_bound(word: &[u8]) -> Option<Bound>
    ensures { IsRead SpellsBound word.now result }
{
    if is_line(word, b"k") {
        return Some(Bound::K);
    }
    if is_line(word, b"array") {
        return Some(Bound::Array);
    }
    if is_line(word, b"alloc") {
        return Some(Bound::Alloc);
    }
    if is_line(word, b"loops") {
        return Some(Bound::Loops);
    }
    if is_line(word, b"depth") {
        return Some(Bound::Depth);
    }
    if is_line(word, b"steps") {
        return Some(Bound::Steps);
    }
    None
}
