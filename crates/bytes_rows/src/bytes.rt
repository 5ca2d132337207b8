//! Bytes from their text.

use kb_outside::Shelf;
use kb_table::{RowResult, RowStop, read_file, read_number};
use std::alloc::Global;

/// The bytes of a text: those of a file, `@` and its name; or pieces with `.` between two, each in hexadecimal, where `00*9`
/// stands for a piece nine times. `-` stands for no bytes.
pub fn read_bytes<S: Shelf>(alloc: Global, text: &str, shelf: &mut S) -> RowResult<Vec<u8>> {
    if let Some(name) = text.strip_prefix("@") {
        return read_file(alloc, name, shelf);
    }
    let mut bytes = Vec::new(alloc);
    if text == "-" {
        return Ok(bytes);
    }
    for piece in text.split('.') {
        append_piece(alloc, piece, &mut bytes)?;
    }
    Ok(bytes)
}

fn append_piece(alloc: Global, piece: &str, bytes: &mut Vec<u8>) -> RowResult<()> {
    match piece.split_once('*') {
        Some((digits, times)) => append_times(alloc, digits, read_number(times)?, bytes),
        None => append_digits(piece.as_bytes(), bytes),
    }
}

fn append_times(alloc: Global, digits: &str, times: u32, bytes: &mut Vec<u8>) -> RowResult<()> {
    let mut once = Vec::new(alloc);
    append_digits(digits.as_bytes(), &mut once)?;
    for _ in 0..times {
        bytes.extend_from_slice(once.as_slice())?;
    }
    Ok(())
}

fn append_digits(digits: &[u8], bytes: &mut Vec<u8>) -> RowResult<()> {
    for pair in digits.chunks_exact(2) {
        if let [high, low] = pair {
            bytes.push(byte_of(*high, *low)?)?;
        }
    }
    Ok(())
}

fn byte_of(high: u8, low: u8) -> RowResult<u8> {
    Ok(digit(high)?.wrapping_shl(4) | digit(low)?)
}

fn digit(byte: u8) -> RowResult<u8> {
    match byte {
        b'0'..=b'9' => Ok(byte - b'0'),
        b'a'..=b'f' => Ok(byte - b'a' + 10),
        _ => Err(RowStop::Malformed),
    }
}
