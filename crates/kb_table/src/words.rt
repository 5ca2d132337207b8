//! The words of rows.

use crate::faults::{RowResult, RowStop};
use std::alloc::Global;

/// The words of a text, with such a character between two of them.
pub fn read_words(alloc: Global, text: &str, between: char) -> RowResult<Vec<String>> {
    let mut words = Vec::new(alloc);
    for word in text.split(between) {
        words.push(String::from_str(alloc, word)?)?;
    }
    Ok(words)
}

/// The number that a word spells.
pub fn read_number(word: &str) -> RowResult<u32> {
    match word.parse::<u32>() {
        Ok(number) => Ok(number),
        Err(_) => Err(RowStop::Malformed),
    }
}

/// The numbers that a text spells, with such a character between two of them.
pub fn read_numbers(alloc: Global, text: &str, between: char) -> RowResult<Vec<u32>> {
    let mut numbers = Vec::new(alloc);
    for word in text.split(between) {
        numbers.push(read_number(word)?)?;
    }
    Ok(numbers)
}

/// The int that a word spells.
pub fn read_int(word: &str) -> RowResult<i32> {
    match word.parse::<i32>() {
        Ok(number) => Ok(number),
        Err(_) => Err(RowStop::Malformed),
    }
}
