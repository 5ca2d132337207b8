//! Orders of numbers, and sets of texts.

use crate::told::{append_bool, append_number, append_text};
use crate::words::{read_list, read_text, read_texts};
use kb_order::{Order, is_complete, order_of, ordered_set};
use kb_rows::Row;
use kb_table::{RowResult, RowStop, read_number};
use std::alloc::Global;

/// Appends what is asked of the order in which these numbers stand directly above 0, 1 and so on.
pub fn append_order(alloc: Global, asked: &[String], into: &mut Vec<u8>) -> RowResult<()> {
    let [question, lists, numbers @ ..] = asked else {
        return Err(RowStop::Malformed);
    };
    match question.as_str() {
        "is_complete" => append_complete(alloc, lists.as_str(), into),
        question => {
            let order = read_order(alloc, lists.as_str())?;
            append_asked(alloc, question, &order, numbers, into)
        }
    }
}

fn append_complete(alloc: Global, lists: &str, into: &mut Vec<u8>) -> RowResult<()> {
    let direct = read_lists(alloc, lists)?;
    append_bool(is_complete(direct.as_slice()), into)
}

fn read_order(alloc: Global, lists: &str) -> RowResult<Order> {
    let direct = read_lists(alloc, lists)?;
    if !is_complete(direct.as_slice()) {
        return Err(RowStop::Malformed);
    }
    Ok(order_of(alloc, direct)?)
}

/// The lists between slashes.
fn read_lists(alloc: Global, spelled: &str) -> RowResult<Vec<Row<u32>>> {
    let mut lists = Vec::new(alloc);
    for list in spelled.split('/') {
        lists.push(Row::from_vec(read_list(alloc, list)?))?;
    }
    Ok(lists)
}

fn append_asked(
    alloc: Global,
    question: &str,
    order: &Order,
    numbers: &[String],
    into: &mut Vec<u8>,
) -> RowResult<()> {
    match numbers {
        [] => append_of_order(alloc, question, order, into),
        [low] => {
            let low = read_number(low.as_str())?;
            append_of_one(alloc, question, order, low, into)
        }
        [low, high] => {
            let low = read_number(low.as_str())?;
            let high = read_number(high.as_str())?;
            append_of_two(question, order, low, high, into)
        }
        _ => Err(RowStop::Malformed),
    }
}

fn append_of_order(
    alloc: Global,
    question: &str,
    order: &Order,
    into: &mut Vec<u8>,
) -> RowResult<()> {
    match question {
        "len" => append_number(alloc, Some(order.len() as u32), into),
        "first_on_circle" => append_number(alloc, order.first_on_circle(), into),
        _ => Err(RowStop::Malformed),
    }
}

fn append_of_one(
    alloc: Global,
    question: &str,
    order: &Order,
    low: u32,
    into: &mut Vec<u8>,
) -> RowResult<()> {
    if low as usize >= order.len() {
        return Err(RowStop::Malformed);
    }
    match question {
        "rank" => append_number(alloc, Some(order.rank(low)), into),
        "marks_above" => append_marks(order.marks_above(low), into),
        _ => Err(RowStop::Malformed),
    }
}

fn append_marks(marks: &[bool], into: &mut Vec<u8>) -> RowResult<()> {
    for mark in marks {
        append_bool(*mark, into)?;
    }
    Ok(())
}

fn append_of_two(
    question: &str,
    order: &Order,
    low: u32,
    high: u32,
    into: &mut Vec<u8>,
) -> RowResult<()> {
    match question {
        "is_above" => append_bool(order.is_above(low, high), into),
        "is_strictly_above" => append_bool(order.is_strictly_above(low, high), into),
        _ => Err(RowStop::Malformed),
    }
}

/// Appends the texts in order, each once, or the place of one.
pub fn append_texts(alloc: Global, asked: &[String], into: &mut Vec<u8>) -> RowResult<()> {
    match asked {
        [texts] => append_all(alloc, texts.as_str(), into),
        [texts, wanted] => append_place(alloc, texts.as_str(), wanted.as_str(), into),
        _ => Err(RowStop::Malformed),
    }
}

fn append_all(alloc: Global, texts: &str, into: &mut Vec<u8>) -> RowResult<()> {
    let set = ordered_set(alloc, read_texts(alloc, texts)?)?;
    for text in set.as_slice() {
        append_text(text.as_slice(), into)?;
    }
    Ok(())
}

fn append_place(alloc: Global, texts: &str, wanted: &str, into: &mut Vec<u8>) -> RowResult<()> {
    let wanted = read_text(alloc, wanted)?;
    let set = ordered_set(alloc, read_texts(alloc, texts)?)?;
    append_number(alloc, set.place_of(wanted.as_slice()), into)
}
