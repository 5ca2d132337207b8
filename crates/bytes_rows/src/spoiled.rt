//! Class files that are cut, or of which one byte is another one.

use kb_classfile::{ClassFile, Code, Handler as Row, Method, read_class};
use kb_code::{Handler, decode};
use kb_table::{RowResult, RowStop, read_number};
use std::alloc::Global;

/// Appends what is read of each front of the bytes: once for each run of fronts of one answer, which begins with that many
/// bytes.
pub fn append_cuts(alloc: Global, bytes: &[u8], into: &mut String) -> RowResult<()> {
    let mut last = String::new(alloc);
    for (end, _) in bytes.iter().enumerate() {
        let now = verdict(alloc, &bytes[..end])?;
        append_new(end, now.as_str(), last.as_str(), into)?;
        last = now;
    }
    Ok(())
}

/// Appends what is read where each byte in turn is the one of that number: once for each run of bytes of one answer, which begins
/// at that offset.
pub fn append_changes(
    alloc: Global,
    bytes: &[u8],
    number: &str,
    into: &mut String,
) -> RowResult<()> {
    let Ok(byte) = u8::try_from(read_number(number)?) else {
        return Err(RowStop::Malformed);
    };
    append_with(alloc, bytes, byte, into)
}

fn append_with(alloc: Global, bytes: &[u8], other: u8, into: &mut String) -> RowResult<()> {
    let mut changed = bytes.to_vec(alloc)?;
    let mut last = String::new(alloc);
    for (at, byte) in bytes.iter().enumerate() {
        set(&mut changed, at, other);
        let now = verdict(alloc, changed.as_slice())?;
        set(&mut changed, at, *byte);
        append_new(at, now.as_str(), last.as_str(), into)?;
        last = now;
    }
    Ok(())
}

fn set(bytes: &mut Vec<u8>, at: usize, byte: u8) {
    if let Some(place) = bytes.get_mut(at) {
        *place = byte;
    }
}

/// Appends a line with an answer, where it is another one than the last.
fn append_new(number: usize, now: &str, last: &str, into: &mut String) -> RowResult<()> {
    if now == last {
        return Ok(());
    }
    Ok(write!(into, "\n{number} {now}")?)
}

/// Why the bytes are refused, or how many instructions each method has, or why its code is refused.
fn verdict(alloc: Global, bytes: &[u8]) -> RowResult<String> {
    let mut text = String::new(alloc);
    match read_class(alloc, bytes) {
        Ok(file) => append_codes(alloc, &file, &mut text)?,
        Err(refusal) => write!(text, "{refusal:?}")?,
    }
    Ok(text)
}

fn append_codes(alloc: Global, file: &ClassFile, into: &mut String) -> RowResult<()> {
    into.push_str("methods")?;
    for method in file.methods.as_slice() {
        append_method(alloc, method, into)?;
    }
    Ok(())
}

fn append_method(alloc: Global, method: &Method, into: &mut String) -> RowResult<()> {
    match &method.code {
        Some(code) => append_decoded(alloc, code, into),
        None => Ok(into.push_str(" none")?),
    }
}

fn append_decoded(alloc: Global, code: &Code, into: &mut String) -> RowResult<()> {
    let handlers = handlers_of(alloc, code.handlers.as_slice())?;
    match decode(alloc, code.bytes.as_slice(), handlers.as_slice()) {
        Ok(listing) => append_count(listing.items.as_slice().len(), into),
        Err(refusal) => Ok(write!(into, " {refusal:?}")?),
    }
}

fn append_count(count: usize, into: &mut String) -> RowResult<()> {
    Ok(write!(into, " {count}")?)
}

fn handlers_of(alloc: Global, rows: &[Row]) -> RowResult<Vec<Handler>> {
    let mut handlers = Vec::new(alloc);
    for row in rows {
        handlers.push(Handler {
            start: row.start,
            end: row.end,
            target: row.target,
            catch: row.catch,
        })?;
    }
    Ok(handlers)
}
