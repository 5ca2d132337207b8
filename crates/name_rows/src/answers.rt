//! What a text comes to.

use crate::texts::append_text;
use kb_names::{
    JType, Name, NameRefusal, NameTextRefusal, Spelling, Target, TargetRefusal, read_method_type,
    read_name, read_target, read_type, write_method_type, write_name, write_target, write_type,
};
use kb_rows::Held;
use kb_table::{RowResult, RowStop, append, kept};
use std::alloc::{AllocError, Global};

/// Appends the answer to a question about the text:
///
/// - `write`: the spelling of the name that has these bytes;
/// - `name`: the bytes of the name that is spelled so, or where the text goes wrong;
/// - `descriptor`: the descriptor of a type, or of a method where it begins with a parenthesis, as it is written again, or where
///   the text goes wrong;
/// - `cut`: where each front of a descriptor goes wrong, the whole last;
/// - `component`: the descriptor of the component of a copy of the array type, with names spelled as in texts;
/// - `target`: the target as it is written again, or where the text goes wrong;
/// - `same`: of two targets, with a space between them, whether the one is the other, and the other the one.
pub fn append_answer(
    alloc: Global,
    question: &str,
    text: &[u8],
    into: &mut Vec<u8>,
) -> RowResult<()> {
    match question {
        "write" => append_spelled(alloc, text, into),
        "name" => append_name(alloc, text, into),
        "descriptor" => append_descriptor(alloc, text, into),
        "cut" => append_cuts(alloc, text, into),
        "component" => append_component(alloc, text, into),
        "target" => append_target(alloc, text, into),
        "same" => append_same(alloc, text, into),
        _ => Err(RowStop::Malformed),
    }
}

fn append_spelled(alloc: Global, bytes: &[u8], into: &mut Vec<u8>) -> RowResult<()> {
    let name = Name::from_slice(alloc, bytes)?;
    kept(write_name(&name, into))
}

fn append_name(alloc: Global, text: &[u8], into: &mut Vec<u8>) -> RowResult<()> {
    match read_name(alloc, text) {
        Ok(name) => append_bytes(name.as_slice(), into),
        Err(NameTextRefusal::BadName(at)) => append_bad(alloc, at, into),
        Err(NameTextRefusal::NoMemory) => Err(RowStop::NoMemory),
    }
}

fn append_bytes(name: &[u8], into: &mut Vec<u8>) -> RowResult<()> {
    match name {
        [] => append("empty", into),
        _ => append_text(name, into),
    }
}

fn append_descriptor(alloc: Global, text: &[u8], into: &mut Vec<u8>) -> RowResult<()> {
    match append_again(alloc, text, into) {
        Ok(()) => Ok(()),
        Err(NameRefusal::BadDescriptor(at)) => append_bad(alloc, at, into),
        Err(NameRefusal::NoMemory) => Err(RowStop::NoMemory),
    }
}

/// Appends the descriptor as it is written again.
fn append_again(alloc: Global, text: &[u8], into: &mut Vec<u8>) -> Result<(), NameRefusal> {
    match text {
        [b'(', ..] => append_method_type(alloc, text, into),
        _ => append_type(alloc, text, into),
    }
}

fn append_method_type(alloc: Global, text: &[u8], into: &mut Vec<u8>) -> Result<(), NameRefusal> {
    let of = read_method_type(alloc, text)?;
    as_refusal(write_method_type(&of, Spelling::Raw, into))
}

fn append_type(alloc: Global, text: &[u8], into: &mut Vec<u8>) -> Result<(), NameRefusal> {
    let of = read_type(alloc, text)?;
    as_refusal(write_type(&of, Spelling::Raw, into))
}

fn as_refusal(written: Result<(), AllocError>) -> Result<(), NameRefusal> {
    match written {
        Ok(()) => Ok(()),
        Err(_) => Err(NameRefusal::NoMemory),
    }
}

fn append_cuts(alloc: Global, text: &[u8], into: &mut Vec<u8>) -> RowResult<()> {
    for (end, _) in text.iter().enumerate() {
        append_descriptor(alloc, &text[..end], into)?;
        append(", ", into)?;
    }
    append_descriptor(alloc, text, into)
}

fn append_component(alloc: Global, text: &[u8], into: &mut Vec<u8>) -> RowResult<()> {
    match read_type(alloc, text) {
        Ok(of) => append_component_of(&of.copied(alloc)?, into),
        Err(_) => Err(RowStop::Malformed),
    }
}

fn append_component_of(of: &JType, into: &mut Vec<u8>) -> RowResult<()> {
    match of {
        JType::Array(component) => kept(write_type(component.get(), Spelling::Escaped, into)),
        _ => Err(RowStop::Malformed),
    }
}

fn append_target(alloc: Global, text: &[u8], into: &mut Vec<u8>) -> RowResult<()> {
    match read_target(alloc, text) {
        Ok(target) => kept(write_target(&target, into)),
        Err(TargetRefusal::BadTarget(at)) => append_bad(alloc, at, into),
        Err(TargetRefusal::NoMemory) => Err(RowStop::NoMemory),
    }
}

fn append_same(alloc: Global, text: &[u8], into: &mut Vec<u8>) -> RowResult<()> {
    let Some(at) = text.iter().position(|byte| *byte == b' ') else {
        return Err(RowStop::Malformed);
    };
    let one = target_of(alloc, &text[..at])?;
    let other = target_of(alloc, &text[at + 1..])?;
    append_both(one.get(), other.get(), into)
}

fn append_both(one: &Target, other: &Target, into: &mut Vec<u8>) -> RowResult<()> {
    append_whether(one.is_same(other), into)?;
    append(" ", into)?;
    append_whether(other.is_same(one), into)
}

fn target_of(alloc: Global, text: &[u8]) -> RowResult<Held<Target>> {
    match read_target(alloc, text) {
        Ok(target) => Ok(Held::new(alloc, target)?),
        Err(_) => Err(RowStop::Malformed),
    }
}

fn append_whether(is_so: bool, into: &mut Vec<u8>) -> RowResult<()> {
    append(if is_so { "same" } else { "other" }, into)
}

fn append_bad(alloc: Global, at: usize, into: &mut Vec<u8>) -> RowResult<()> {
    let piece = format!(in alloc; "bad at {at}")?;
    append(piece.as_str(), into)
}
