//! The words of answers, each behind a space.

use kb_table::RowResult;
use std::alloc::Global;

/// Appends that word.
pub fn append_word(word: &str, into: &mut Vec<u8>) -> RowResult<()> {
    into.push(b' ')?;
    into.extend_from_slice(word.as_bytes())?;
    Ok(())
}

/// Appends `true` or `false`.
pub fn append_bool(holds: bool, into: &mut Vec<u8>) -> RowResult<()> {
    match holds {
        true => append_word("true", into),
        false => append_word("false", into),
    }
}

/// Appends the number, or `none`.
pub fn append_number(alloc: Global, number: Option<u32>, into: &mut Vec<u8>) -> RowResult<()> {
    match number {
        Some(number) => append_word(format!(in alloc; "{number}")?.as_str(), into),
        None => append_word("none", into),
    }
}

/// Appends the int, or `none`.
pub fn append_signed(alloc: Global, number: Option<i32>, into: &mut Vec<u8>) -> RowResult<()> {
    match number {
        Some(number) => append_word(format!(in alloc; "{number}")?.as_str(), into),
        None => append_word("none", into),
    }
}

/// Appends the numbers with commas between them; `-` where there are none.
pub fn append_numbers(alloc: Global, numbers: &[u32], into: &mut Vec<u8>) -> RowResult<()> {
    let [first, others @ ..] = numbers else {
        return append_word("-", into);
    };
    append_number(alloc, Some(*first), into)?;
    for number in others {
        into.extend_from_slice(format!(in alloc; ",{number}")?.as_bytes())?;
    }
    Ok(())
}

/// Appends the text as a word spells it.
pub fn append_text(text: &[u8], into: &mut Vec<u8>) -> RowResult<()> {
    if text.is_empty() {
        return append_word(".", into);
    }
    into.push(b' ')?;
    for byte in text {
        match byte {
            b' ' => into.push(b'_')?,
            255 => into.push(b'~')?,
            _ => into.push(*byte)?,
        }
    }
    Ok(())
}
