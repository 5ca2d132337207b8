//! Texts of many lines as one.

use kb_table::RowResult;
use std::alloc::Global;

/// The first lines of a test that has neither arguments nor objects.
const HEAD: &[u8] = b"test A.f()V\nbounds alloc 0 loops 0 depth 1 steps 1\n";

/// The text that is spelled so: `|` is a line feed, `~` the first lines of a test, and `-` alone is no text.
pub fn read_text(alloc: Global, spelled: &str) -> RowResult<Vec<u8>> {
    let mut text = Vec::new(alloc);
    if spelled == "-" {
        return Ok(text);
    }
    for byte in spelled.as_bytes() {
        push_spelled(*byte, &mut text)?;
    }
    Ok(text)
}

fn push_spelled(byte: u8, text: &mut Vec<u8>) -> RowResult<()> {
    match byte {
        b'|' => Ok(text.push(b'\n')?),
        b'~' => Ok(text.extend_from_slice(HEAD)?),
        _ => Ok(text.push(byte)?),
    }
}

/// Appends the text on one line, with `|` for each line feed.
pub fn append_text(text: &[u8], into: &mut Vec<u8>) -> RowResult<()> {
    for byte in text {
        into.push(if *byte == b'\n' { b'|' } else { *byte })?;
    }
    Ok(into.push(b'\n')?)
}
