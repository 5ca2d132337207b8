//! The words of assembler texts that take memory: names, labels, types.

ghost use Rattle.std.specs.Prelude.{◌≡◌, ◌≢◌, ◌↔◌, [], IsTrue, IfOk};
ghost use Rattle.std.specs.List.{list_all};
ghost use Rattle.kb_grammar.specs.Lines.{IsRead};
ghost use Rattle.kb_names.specs.Descriptors.{SpellsType, SpellsMethod};
ghost use Rattle.kb_asm_text.specs.Tokens.{is_label_byte, SpellsLabel, SpellsText, SpellsClassRef, IsArray};
ghost use Rattle.kb_asm_text.specs.Lines.{SpellsCaught};

use crate::NoMemory;
use crate::line::ClassRef;
use kb_grammar::is_line;
use kb_names::{
    JType, MethodType, Name, NameRefusal, NameTextRefusal, Spelling, read_method_type_as,
    read_name, read_type_as,
};
use std::alloc::Global;

/// The name or string that the word spells.
pub(crate) fn read_text(alloc: Global, word: &[u8]) -> Result<Option<Name>, NoMemory>
    ensures { IfOk result (IsRead SpellsText word.now) }
{
    match read_name(alloc, word) {
        Ok(name) => {
            if name.is_empty() {
                return Ok(None);
            }
            Ok(Some(name))
        }
        Err(NameTextRefusal::BadName(_)) => Ok(None),
        Err(NameTextRefusal::NoMemory) => Err(NoMemory),
    }
}

/// The type that the word spells.
pub(crate) fn read_type(alloc: Global, word: &[u8]) -> Result<Option<JType>, NoMemory>
    ensures { IfOk result (IsRead (SpellsType Spelling.Escaped) word.now) }
{
    match read_type_as(alloc, Spelling::Escaped, word) {
        Ok(kind) => Ok(Some(kind)),
        Err(NameRefusal::BadDescriptor(_)) => Ok(None),
        Err(NameRefusal::NoMemory) => Err(NoMemory),
    }
}

/// The type of a method that the word spells.
pub(crate) fn read_method_type(alloc: Global, word: &[u8]) -> Result<Option<MethodType>, NoMemory>
    ensures { IfOk result (IsRead (SpellsMethod Spelling.Escaped) word.now) }
{
    match read_method_type_as(alloc, Spelling::Escaped, word) {
        Ok(kind) => Ok(Some(kind)),
        Err(NameRefusal::BadDescriptor(_)) => Ok(None),
        Err(NameRefusal::NoMemory) => Err(NoMemory),
    }
}

/// Whether it is an array type.
fn is_array(of: &JType) -> bool
    ensures { IsTrue result ↔ IsArray of.now }
{
    matches!(of, JType::Array(_))
}

/// The class or array type that the word spells.
pub(crate) fn read_class_ref(alloc: Global, word: &[u8]) -> Result<Option<ClassRef>, NoMemory>
    ensures { IfOk result (IsRead SpellsClassRef word.now) }
{
    if let Some(name) = read_text(alloc, word)? {
        return Ok(Some(ClassRef::Class(name)));
    }
    match read_type(alloc, word)? {
        Some(of) => {
            if !is_array(&of) {
                return Ok(None);
            }
            Ok(Some(ClassRef::Array(of)))
        }
        None => Ok(None),
    }
}

/// Whether the byte is a letter or a digit.
fn is_label_byte(byte: u8) -> bool
    ensures { result ≡ is_label_byte byte }
{
    matches!(byte, b'a'..=b'z' | b'A'..=b'Z' | b'0'..=b'9')
}

/// Whether all bytes are letters and digits.
fn are_label_bytes(word: &[u8]) -> bool
    ensures { result ≡ list_all is_label_byte word.now }
{
    let mut rest = word;
    while let [first, others @ ..] = rest {
        if !is_label_byte(*first) {
            return false;
        }
        rest = others;
    }
    true
}

/// The label that the word spells.
pub(crate) fn read_label(alloc: Global, word: &[u8]) -> Result<Option<Name>, NoMemory>
    ensures { IfOk result (IsRead SpellsLabel word.now) }
{
    if word.is_empty() {
        return Ok(None);
    }
    if !are_label_bytes(word) {
        return Ok(None);
    }
    Ok(Some(Name::from_slice(alloc, word)?))
}

/// The class that the word names, or any.
pub(crate) fn read_caught(alloc: Global, word: &[u8]) -> Result<Option<Option<Name>>, NoMemory>
    ensures { IfOk result (IsRead SpellsCaught word.now) }
{
    if is_line(word, b"any") {
        return Ok(Some(None));
    }
    match read_text(alloc, word)? {
        Some(name) => Ok(Some(Some(name))),
        None => Ok(None),
    }
}
