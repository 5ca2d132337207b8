//! Readers of words, numbers and lines.

use crate::told::{append_bool, append_number, append_signed, append_text, append_word};
use crate::words::read_text;
use kb_grammar::{behind, cut, is_line, number_behind, number_within, read_int, read_number};
use kb_table::{RowResult, RowStop};
use std::alloc::Global;

/// Appends what is read of a text, in front of another or within a limit.
pub fn append_reading(alloc: Global, asked: &[String], into: &mut Vec<u8>) -> RowResult<()> {
    match asked {
        [question, text] => {
            let text = read_text(alloc, text.as_str())?;
            append_of_one(alloc, question.as_str(), text.as_slice(), into)
        }
        [question, text, other] => {
            let text = read_text(alloc, text.as_str())?;
            let other = read_text(alloc, other.as_str())?;
            append_of_two(
                alloc,
                question.as_str(),
                text.as_slice(),
                other.as_slice(),
                into,
            )
        }
        _ => Err(RowStop::Malformed),
    }
}

fn append_of_one(alloc: Global, question: &str, text: &[u8], into: &mut Vec<u8>) -> RowResult<()> {
    match question {
        "number" => append_number(alloc, read_number(text), into),
        "int" => append_signed(alloc, read_int(text), into),
        "cut" => append_parts(text, into),
        _ => Err(RowStop::Malformed),
    }
}

fn append_of_two(
    alloc: Global,
    question: &str,
    text: &[u8],
    other: &[u8],
    into: &mut Vec<u8>,
) -> RowResult<()> {
    match question {
        "within" => append_within(alloc, text, other, into),
        "behind" => match behind(text, other) {
            Some(rest) => append_text(rest, into),
            None => append_word("none", into),
        },
        "number_behind" => append_behind(alloc, text, other, into),
        "is_line" => append_bool(is_line(text, other), into),
        _ => Err(RowStop::Malformed),
    }
}

/// Appends the parts before and behind the first space.
fn append_parts(text: &[u8], into: &mut Vec<u8>) -> RowResult<()> {
    let Some((front, rest)) = cut(text, b' ') else {
        return append_word("none", into);
    };
    append_text(front, into)?;
    append_text(rest, into)
}

fn append_within(alloc: Global, word: &[u8], limit: &[u8], into: &mut Vec<u8>) -> RowResult<()> {
    let Some(limit) = read_number(limit) else {
        return Err(RowStop::Malformed);
    };
    append_number(alloc, number_within(word, limit), into)
}

fn append_behind(alloc: Global, text: &[u8], front: &[u8], into: &mut Vec<u8>) -> RowResult<()> {
    let Some((number, rest)) = number_behind(text, front) else {
        return append_word("none", into);
    };
    append_number(alloc, Some(number), into)?;
    append_text(rest, into)
}
