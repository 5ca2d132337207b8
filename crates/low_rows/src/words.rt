//! What the words of a question spell.

use kb_rows::Row;
use kb_table::{RowResult, read_numbers};
use std::alloc::Global;

/// The numbers between commas; `-` alone is none.
pub fn read_list(alloc: Global, spelled: &str) -> RowResult<Vec<u32>> {
    if spelled == "-" {
        return Ok(Vec::new(alloc));
    }
    read_numbers(alloc, spelled, ',')
}

/// The text that a word spells: `_` is a space, `~` the byte 255, and `.` alone the empty text.
pub fn read_text(alloc: Global, word: &str) -> RowResult<Vec<u8>> {
    let mut text = Vec::new(alloc);
    if word == "." {
        return Ok(text);
    }
    for byte in word.as_bytes() {
        match byte {
            b'_' => text.push(b' ')?,
            b'~' => text.push(255)?,
            _ => text.push(*byte)?,
        }
    }
    Ok(text)
}

/// The texts between commas; `-` alone is none.
pub fn read_texts(alloc: Global, spelled: &str) -> RowResult<Vec<Row<u8>>> {
    let mut texts = Vec::new(alloc);
    if spelled == "-" {
        return Ok(texts);
    }
    for word in spelled.split(',') {
        texts.push(Row::from_vec(read_text(alloc, word)?))?;
    }
    Ok(texts)
}
