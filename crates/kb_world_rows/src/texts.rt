//! Texts that grow, and numbers of rows.

use kb_names::{ExactType, JType, Name, Spelling, write_name, write_type};
use kb_table::{RowResult, RowStop, kept};
use std::alloc::Global;

/// Adds a piece to a text.
pub fn add(piece: &str, text: &mut Vec<u8>) -> RowResult<()> {
    Ok(text.extend_from_slice(piece.as_bytes())?)
}

/// Adds a number with what stands before and behind it.
pub fn add_number(
    alloc: Global,
    before: &str,
    number: i64,
    behind: &str,
    text: &mut Vec<u8>,
) -> RowResult<()> {
    let piece = format!(in alloc; "{before}{number}{behind}")?;
    add(piece.as_str(), text)
}

/// Adds access flags.
pub fn add_access(alloc: Global, access: u16, text: &mut Vec<u8>) -> RowResult<()> {
    let piece = format!(in alloc; "{access:#06x}")?;
    add(piece.as_str(), text)
}

/// Adds a line that says whether it is so.
pub fn add_whether(holds: bool, text: &mut Vec<u8>) -> RowResult<()> {
    match holds {
        true => add("true\n", text),
        false => add("false\n", text),
    }
}

/// Adds a line that says whether a class has a file.
pub fn add_origin(has_file: bool, text: &mut Vec<u8>) -> RowResult<()> {
    match has_file {
        true => add(" from a file\n", text),
        false => add(" of the platform\n", text),
    }
}

pub fn write_exact(of: &ExactType, text: &mut Vec<u8>) -> RowResult<()> {
    match of {
        ExactType::Class(name) => write_text(name, text),
        ExactType::Array(component) => {
            add("[", text)?;
            write_kind(component, text)
        }
    }
}

/// A line with the type of an entry.
pub fn write_type_entry(of: &ExactType, text: &mut Vec<u8>) -> RowResult<()> {
    add("type ", text)?;
    write_exact(of, text)?;
    add("\n", text)
}

pub fn write_kind(kind: &JType, text: &mut Vec<u8>) -> RowResult<()> {
    kept(write_type(kind, Spelling::Escaped, text))
}

pub fn write_text(name: &Name, text: &mut Vec<u8>) -> RowResult<()> {
    kept(write_name(name, text))
}

pub fn write_none(text: &mut Vec<u8>) -> RowResult<()> {
    add("none\n", text)
}

/// The number of an entry of a constant pool.
pub fn read_entry(word: &str) -> RowResult<u16> {
    match word.parse::<u16>() {
        Ok(entry) => Ok(entry),
        Err(_) => Err(RowStop::Malformed),
    }
}
