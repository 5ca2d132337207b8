//! Slots as the lines of a report name them, read without a world.
ghost use Rattle.std.specs.Prelude.{◌≡◌, IfOk};
ghost use Rattle.kb_grammar.specs.Lines.{IsRead};
ghost use Rattle.kb_names.specs.Escapes.{SpellsName};
ghost use Rattle.kb_path_words.specs.Slots.{SpellsKind, SpellsField, SpellsSlot, SpellsFieldOf, SpellsElement};

use crate::NoMemory;
use kb_grammar::{behind, cut, first_part, last_number, number_before, read_number};
use kb_names::{JType, Name, NameRefusal, NameTextRefusal, Spelling, read_name, read_type_as};
use std::alloc::Global;

/// A field: the class that declares it, its name, and its descriptor if it stands there.
#[derive(Drop)]
pub struct FieldWord {
    pub class: Name,
    pub name: Name,
    pub kind: Option<JType>,
}

/// A slot of the first heap.
#[derive(Drop)]
pub enum SlotWord {
    Arg(u32),
    /// Of an object of the picture, by its number.
    Field(u32, FieldWord),
    Element(u32, u32),
}

// The name that the text spells.
fn name_of(alloc: Global, text: &[u8]) -> Result<Option<Name>, NoMemory>
    ensures { IfOk result (IsRead SpellsName text.now) }
{
    match read_name(alloc, text) {
        Ok(name) => Ok(Some(name)),
        Err(NameTextRefusal::BadName(_)) => Ok(None),
        Err(NameTextRefusal::NoMemory) => Err(NoMemory),
    }
}

// The descriptor behind a colon, if there is one.
fn read_kind(alloc: Global, text: &[u8]) -> Result<Option<Option<JType>>, NoMemory>
    ensures { IfOk result (IsRead SpellsKind text.now) }
{
    if text.is_empty() {
        return Ok(Some(None));
    }
    let Some(descriptor) = behind(text, b":") else {
        return Ok(None);
    };
    match read_type_as(alloc, Spelling::Escaped, descriptor) {
        Ok(kind) => Ok(Some(Some(kind))),
        Err(NameRefusal::BadDescriptor(_)) => Ok(None),
        Err(NameRefusal::NoMemory) => Err(NoMemory),
    }
}

#[tactic(auto, unfolding(crate::specs::Slots::field_text))]
fn read_field(alloc: Global, text: &[u8]) -> Result<Option<FieldWord>, NoMemory>
    ensures { IfOk result (IsRead SpellsField text.now) }
{
    let Some((declaring, member)) = cut(text, b'.') else {
        return Ok(None);
    };
    let Some(class) = name_of(alloc, declaring)? else {
        return Ok(None);
    };
    let (named, descriptor) = first_part(member, b':');
    let Some(name) = name_of(alloc, named)? else {
        return Ok(None);
    };
    match read_kind(alloc, descriptor)? {
        Some(kind) => Ok(Some(FieldWord { class, name, kind })),
        None => Ok(None),
    }
}

// An object by its number, and a field of it.
#[tactic(auto, unfolding(crate::specs::Slots::slot_text))]
fn read_field_of(alloc: Global, word: &[u8]) -> Result<Option<(u32, FieldWord)>, NoMemory>
    ensures { IfOk result (IsRead SpellsFieldOf word.now) }
{
    let Some((object, rest)) = number_before(word, b"o", b'.') else {
        return Ok(None);
    };
    let Some(text) = behind(rest, b".") else {
        return Ok(None);
    };
    match read_field(alloc, text)? {
        Some(field) => Ok(Some((object, field))),
        None => Ok(None),
    }
}

// An array by its number, and the index of an element.
#[tactic(auto, unfolding(crate::specs::Slots::slot_text))]
fn read_element(word: &[u8]) -> Option<(u32, u32)>
    ensures { IsRead SpellsElement word.now result }
{
    let text = behind(word, b"o")?;
    let (array, rest) = cut(text, b'[')?;
    let (index, tail) = cut(rest, b']')?;
    if !tail.is_empty() {
        return None;
    }
    let number = read_number(array)?;
    let at = read_number(index)?;
    Some((number, at))
}

/// The slot that the word names.
#[tactic(auto, unfolding(crate::specs::Slots::slot_text))]
pub fn read_slot(alloc: Global, word: &[u8]) -> Result<Option<SlotWord>, NoMemory>
    ensures { IfOk result (IsRead SpellsSlot word.now) }
{
    if let Some(number) = last_number(word, b"a") {
        return Ok(Some(SlotWord::Arg(number)));
    }
    if let Some((array, index)) = read_element(word) {
        return Ok(Some(SlotWord::Element(array, index)));
    }
    match read_field_of(alloc, word)? {
        Some((object, field)) => Ok(Some(SlotWord::Field(object, field))),
        None => Ok(None),
    }
}
