//! Questions to the class of a text.

use crate::lines::{append_front_answer, append_int_answer, append_line_answer};
use crate::spoiled::{append_changes, append_cuts};
use kb_asm::assemble;
use kb_classfile::{ClassFile, Code, Handler as Row, read_class};
use kb_code::{Handler, Listing, decode};
use kb_table::{RowResult, RowStop};
use std::alloc::Global;

/// Appends the answer to a question about the lines of a text: whether it spells one (`line`), which int that pushes (`int`), or
/// how many fit (`front`); what its fronts (`cuts`) and the text with another byte (`changes`) are; or about its class file.
pub fn append_answer(
    alloc: Global,
    question: &str,
    text: &[u8],
    into: &mut String,
) -> RowResult<()> {
    match question {
        "line" => append_line_answer(alloc, text, into),
        "int" => append_int_answer(alloc, text, into),
        "front" => append_front_answer(alloc, text, into),
        "cuts" => append_cuts(alloc, text, into),
        "changes" => append_changes(alloc, text, into),
        _ => append_class_answer(alloc, question, text, into),
    }
}

/// Appends why the text is refused, or the answer to a question about its class file.
fn append_class_answer(
    alloc: Global,
    question: &str,
    text: &[u8],
    into: &mut String,
) -> RowResult<()> {
    match assemble(alloc, text) {
        Ok(bytes) => append_of_bytes(alloc, question, bytes.as_slice(), into),
        Err(refusal) => Ok(write!(into, "{refusal:?}")?),
    }
}

/// Appends the `bytes` of a class file, how many they are (`size`), how many entries its pool has (`pool`), or the bytes (`body`)
/// or the instructions (`code`) of its method of code, which is the first one that has some.
fn append_of_bytes(
    alloc: Global,
    question: &str,
    bytes: &[u8],
    into: &mut String,
) -> RowResult<()> {
    match question {
        "bytes" => append_hexadecimal(bytes, into),
        "size" => append_count(bytes.len(), " bytes", into),
        "pool" | "body" | "code" => append_file_answer(alloc, question, bytes, into),
        _ => Err(RowStop::Malformed),
    }
}

fn append_hexadecimal(bytes: &[u8], into: &mut String) -> RowResult<()> {
    for byte in bytes {
        write!(into, "{byte:02x}")?;
    }
    Ok(())
}

fn append_count(count: usize, of: &str, into: &mut String) -> RowResult<()> {
    Ok(write!(into, "{count}{of}")?)
}

/// Appends the answer to a question about the class file of these bytes, or why it is refused.
fn append_file_answer(
    alloc: Global,
    question: &str,
    bytes: &[u8],
    into: &mut String,
) -> RowResult<()> {
    match read_class(alloc, bytes) {
        Ok(file) => append_of_file(alloc, question, &file, into),
        Err(refusal) => Ok(write!(into, "{refusal:?}")?),
    }
}

fn append_of_file(
    alloc: Global,
    question: &str,
    file: &ClassFile,
    into: &mut String,
) -> RowResult<()> {
    match question {
        "pool" => append_entries(file, into),
        "body" => append_hexadecimal(first_code(file)?.bytes.as_slice(), into),
        _ => append_code(alloc, first_code(file)?, into),
    }
}

/// Appends how many entries the pool has. The number 0 is that of none.
fn append_entries(file: &ClassFile, into: &mut String) -> RowResult<()> {
    let entries = file.pool.as_slice().len().saturating_sub(1);
    append_count(entries, " entries", into)
}

/// Appends the instructions of code, or why it is refused.
fn append_code(alloc: Global, code: &Code, into: &mut String) -> RowResult<()> {
    let handlers = handlers_of(alloc, code.handlers.as_slice())?;
    append_decoded(alloc, code.bytes.as_slice(), handlers.as_slice(), into)
}

fn append_decoded(
    alloc: Global,
    code: &[u8],
    handlers: &[Handler],
    into: &mut String,
) -> RowResult<()> {
    match decode(alloc, code, handlers) {
        Ok(listing) => append_listing(&listing, into),
        Err(refusal) => Ok(write!(into, "{refusal:?}")?),
    }
}

fn append_listing(listing: &Listing, into: &mut String) -> RowResult<()> {
    for (at, instruction) in listing.items.as_slice() {
        write!(into, "{at} {instruction:?}; ")?;
    }
    Ok(())
}

/// The code of the first method that has some.
fn first_code(file: &ClassFile) -> RowResult<&Code> {
    for method in file.methods.as_slice() {
        if let Some(code) = &method.code {
            return Ok(code);
        }
    }
    Err(RowStop::Malformed)
}

fn handlers_of(alloc: Global, rows: &[Row]) -> RowResult<Vec<Handler>> {
    let mut handlers = Vec::new(alloc);
    for row in rows {
        handlers.push(Handler {
            start: row.start,
            end: row.end,
            target: row.target,
            catch: row.catch,
        })?;
    }
    Ok(handlers)
}
