//! Texts that are cut, or of which one byte is another one.

use kb_asm::assemble;
use kb_table::RowResult;
use std::alloc::Global;

/// A byte that no text has: in names it is written as `%FF`.
const OTHER: u8 = 255;

/// Appends what each front of the text is assembled to: once for each run of fronts of one answer, which begins with that many
/// bytes.
pub fn append_cuts(alloc: Global, text: &[u8], into: &mut String) -> RowResult<()> {
    let mut last = String::new(alloc);
    for (end, _) in text.iter().enumerate() {
        let now = verdict(alloc, &text[..end])?;
        append_new(end, now.as_str(), last.as_str(), into)?;
        last = now;
    }
    Ok(())
}

/// Appends what the text is assembled to where each byte in turn is one that no text has: once for each run of bytes of one answer,
/// which begins at that offset.
pub fn append_changes(alloc: Global, text: &[u8], into: &mut String) -> RowResult<()> {
    let mut changed = text.to_vec(alloc)?;
    let mut last = String::new(alloc);
    for (at, byte) in text.iter().enumerate() {
        set(&mut changed, at, OTHER);
        let now = verdict(alloc, changed.as_slice())?;
        set(&mut changed, at, *byte);
        append_new(at, now.as_str(), last.as_str(), into)?;
        last = now;
    }
    Ok(())
}

fn set(bytes: &mut Vec<u8>, at: usize, byte: u8) {
    if let Some(place) = bytes.get_mut(at) {
        *place = byte;
    }
}

/// Appends a line with an answer, where it is another one than the last.
fn append_new(number: usize, now: &str, last: &str, into: &mut String) -> RowResult<()> {
    if now == last {
        return Ok(());
    }
    Ok(write!(into, "\n{number} {now}")?)
}

/// Whether the text is assembled, or why it is not.
fn verdict(alloc: Global, text: &[u8]) -> RowResult<String> {
    let mut told = String::new(alloc);
    match assemble(alloc, text) {
        Ok(_) => told.push_str("a class file")?,
        Err(refusal) => write!(told, "{refusal:?}")?,
    }
    Ok(told)
}
