//! The lines of a path's leaf.

use crate::inputs::{add_to_input, no_input};
use crate::logs::read_learnt;
use crate::texts::{push, split};
use crate::words::{read_bound, read_exact, read_out, read_slot};
use kb_chain::Log;
use kb_heap::Place;
use kb_names::read_target;
use kb_picture::{Ended, Leaf, Made, Out, Path, SymEnding, Write};
use kb_rows::Row;
use kb_table::{RowResult, RowStop, read_number};
use std::alloc::Global;

/// The leaf of a path that returns at once.
pub fn at_once(alloc: Global) -> Leaf {
    Leaf::Ended(Ended {
        ending: SymEnding::Returned(None),
        writes: Row::new(alloc),
        made: Row::new(alloc),
        input: no_input(alloc),
    })
}

/// As in `cut k`, `open`, `undecided`, with its lines `learn`, or a line of an ended path.
pub fn add_to_leaf(alloc: Global, word: &str, rest: &str, leaf: &mut Leaf) -> RowResult<()> {
    match word.as_bytes() {
        b"cut" => put(Leaf::Cut(read_bound(rest)?, no_input(alloc)), leaf),
        b"open" => put(Leaf::Open, leaf),
        b"undecided" => put(undecided(alloc), leaf),
        b"learn" => return add_to_log(alloc, rest, leaf),
        _ => return add_to_end(alloc, word, rest, leaf),
    }
    Ok(())
}

fn put(found: Leaf, leaf: &mut Leaf) {
    *leaf = found;
}

fn undecided(alloc: Global) -> Leaf {
    Leaf::Undecided(Log {
        entries: Row::new(alloc),
    })
}

/// As in `4 2 1 7 30`.
fn add_to_log(alloc: Global, rest: &str, leaf: &mut Leaf) -> RowResult<()> {
    match leaf {
        Leaf::Undecided(log) => push(read_learnt(alloc, rest), &mut log.entries),
        _ => Err(RowStop::Malformed),
    }
}

/// A line of the input that the path carries.
pub fn add_carried(alloc: Global, word: &str, rest: &str, path: &mut Path) -> RowResult<()> {
    match &mut path.leaf {
        Leaf::Ended(ended) => add_to_input(alloc, word, rest, &mut ended.input),
        Leaf::Cut(_, input) => add_to_input(alloc, word, rest, input),
        _ => Err(RowStop::Malformed),
    }
}

fn add_to_end(alloc: Global, word: &str, rest: &str, leaf: &mut Leaf) -> RowResult<()> {
    match leaf {
        Leaf::Ended(ended) => add_to_ended(alloc, word, rest, ended),
        _ => Err(RowStop::Malformed),
    }
}

fn add_to_ended(alloc: Global, word: &str, rest: &str, ended: &mut Ended) -> RowResult<()> {
    match word.as_bytes() {
        b"set" => push(read_write(rest), &mut ended.writes),
        b"new" => push(read_made(alloc, rest), &mut ended.made),
        _ => set_ending(alloc, word, rest, &mut ended.ending),
    }
}

fn set_ending(alloc: Global, word: &str, rest: &str, ending: &mut SymEnding) -> RowResult<()> {
    *ending = read_ending(alloc, word, rest)?;
    Ok(())
}

fn read_ending(alloc: Global, word: &str, rest: &str) -> RowResult<SymEnding> {
    match word.as_bytes() {
        b"returns" => Ok(SymEnding::Returned(read_result(rest)?)),
        b"throws" => Ok(SymEnding::Threw(read_out(rest)?)),
        b"illtyped" => Ok(SymEnding::IllTyped(read_place(alloc, rest)?)),
        _ => Err(RowStop::Malformed),
    }
}

/// As in `A.f(I)V 7`.
fn read_place(alloc: Global, text: &str) -> RowResult<Place> {
    let (method, at) = split(text);
    let at = read_number(at)?;
    match read_target(alloc, method.as_bytes()) {
        Ok(method) => Ok(Place { method, at }),
        Err(_) => Err(RowStop::Malformed),
    }
}

/// The value that is returned, if one is.
fn read_result(word: &str) -> RowResult<Option<Out>> {
    if word.is_empty() {
        return Ok(None);
    }
    Ok(Some(read_out(word)?))
}

/// As in `o0.1 null`.
fn read_write(text: &str) -> RowResult<Write> {
    let (slot, value) = split(text);
    Ok(Write {
        slot: read_slot(slot)?,
        value: read_out(value)?,
    })
}

/// As in `n0 Node 0 null`.
fn read_made(alloc: Global, text: &str) -> RowResult<Made> {
    let (_, text) = split(text);
    let (kind, values) = split(text);
    let values = read_outs(alloc, values)?;
    let kind = read_exact(alloc, kind)?;
    Ok(Made { kind, values })
}

fn read_outs(alloc: Global, text: &str) -> RowResult<Row<Out>> {
    let mut outs = Row::new(alloc);
    add_outs(text, &mut outs)?;
    Ok(outs)
}

fn add_outs(text: &str, outs: &mut Row<Out>) -> RowResult<()> {
    if text.is_empty() {
        return Ok(());
    }
    for word in text.split(' ') {
        push(read_out(word), outs)?;
    }
    Ok(())
}
