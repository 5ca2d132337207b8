//! Rows, and values in boxes.

use crate::told::{append_number, append_numbers};
use crate::words::read_list;
use kb_rows::{Held, Row};
use kb_table::{RowResult, RowStop, read_number, read_words};
use std::alloc::Global;

/// Appends the items of a copy of a row that was changed step by step, and the items that the row gives back.
pub fn append_list(alloc: Global, asked: &[String], into: &mut Vec<u8>) -> RowResult<()> {
    let [items, steps @ ..] = asked else {
        return Err(RowStop::Malformed);
    };
    let mut row = read_row(alloc, items.as_str())?;
    for step in steps {
        change(alloc, step.as_str(), &mut row)?;
    }
    let copy = row.clone()?;
    append_numbers(alloc, copy.as_slice(), into)?;
    append_numbers(alloc, row.into_vec().as_slice(), into)
}

/// The row of these items; `-` alone is none.
fn read_row(alloc: Global, items: &str) -> RowResult<Row<u32>> {
    if items == "-" {
        return Ok(Row::new(alloc));
    }
    Ok(Row::from_vec(read_list(alloc, items)?))
}

fn change(alloc: Global, step: &str, row: &mut Row<u32>) -> RowResult<()> {
    let words = read_words(alloc, step, ':')?;
    match words.as_slice() {
        [way, item] => add(way.as_str(), read_number(item.as_str())?, row),
        [way, index, item] => {
            let index = read_number(index.as_str())?;
            let item = read_number(item.as_str())?;
            replace(way.as_str(), index as usize, item, row)
        }
        _ => Err(RowStop::Malformed),
    }
}

fn add(way: &str, item: u32, row: &mut Row<u32>) -> RowResult<()> {
    match way {
        "push" => Ok(row.push(item)?),
        "give" => match row.give(item) {
            Ok(()) => Ok(()),
            Err(_) => Err(RowStop::Malformed),
        },
        "with" => {
            *row = row.clone()?.with(item)?;
            Ok(())
        }
        _ => Err(RowStop::Malformed),
    }
}

fn replace(way: &str, index: usize, item: u32, row: &mut Row<u32>) -> RowResult<()> {
    if index >= row.as_slice().len() {
        return Err(RowStop::Malformed);
    }
    match way {
        "set" => row.set(index, item),
        "item_mut" => *row.item_mut(index) = item,
        _ => return Err(RowStop::Malformed),
    }
    Ok(())
}

/// Appends a number that lies in a box, and the one that it is changed to there.
pub fn append_held(alloc: Global, asked: &[String], into: &mut Vec<u8>) -> RowResult<()> {
    let [first, second] = asked else {
        return Err(RowStop::Malformed);
    };
    let mut held = Held::new(alloc, read_number(first.as_str())?)?;
    append_number(alloc, Some(*held.get()), into)?;
    *held.get_mut() = read_number(second.as_str())?;
    append_number(alloc, Some(held.into_inner()), into)
}
