//! The words of rows: choices, values of a state, and slots of its objects.

use kb_frames::{Cell, SymState, SymValue};
use kb_path_lines::{numbered, read_exact, read_out, split};
use kb_picture::{Choice, Length, Out};
use kb_table::{RowResult, RowStop, read_number};
use std::alloc::Global;

/// A slot of an object of the picture, or of one that the run has made.
#[derive(Clone, Copy, PartialEq, Eq)]
pub enum Place {
    Pictured(u32, u32),
    Made(u32, u32),
}

/// `null`, `location`, `beyond`, an object of the picture, as in `o0`, or a new one, as in `new Names`.
pub fn read_choice(alloc: Global, words: &str) -> RowResult<Choice> {
    let (word, kind) = split(words);
    match word.as_bytes() {
        b"null" => Ok(Choice::Null),
        b"location" => Ok(Choice::Location),
        b"beyond" => Ok(Choice::Beyond),
        b"new" => Ok(Choice::Fresh(read_exact(alloc, kind)?, Length::Plain)),
        _ => match numbered(word, "o") {
            Some(object) => Ok(Choice::Alias(object)),
            None => Err(RowStop::Malformed),
        },
    }
}

/// The value that a word names: what a slot holds, as in `x1.0`, or what stands there.
pub fn value_of(state: &SymState, word: &str) -> RowResult<SymValue> {
    if !word.contains('.') {
        return plain_value(state, word);
    }
    let value = match read_place(state, word)? {
        Place::Pictured(object, slot) => value_in(state.cell(object, slot)),
        Place::Made(object, slot) => state.made_value(object, slot),
    };
    value.ok_or(RowStop::Malformed)
}

/// What a cell holds, if it was read or written.
fn value_in(cell: Option<Cell>) -> Option<SymValue> {
    match cell {
        Some(Cell::Read(value)) | Some(Cell::Written(value)) => Some(value),
        Some(Cell::Untouched) | None => None,
    }
}

/// The value of a local, as in `x1`, or the one that the word itself names, as `null`, `l0`, `o0` or `n0` does.
fn plain_value(state: &SymState, word: &str) -> RowResult<SymValue> {
    match numbered(word, "x") {
        Some(number) => local_of(state, number),
        None => named_value(read_out(word)?),
    }
}

fn local_of(state: &SymState, number: u32) -> RowResult<SymValue> {
    match u16::try_from(number) {
        Ok(number) => state.local(number).ok_or(RowStop::Malformed),
        Err(_) => Err(RowStop::Malformed),
    }
}

fn named_value(out: Out) -> RowResult<SymValue> {
    match out {
        Out::Null => Ok(SymValue::Null),
        Out::Loc(number) => Ok(SymValue::Loc(number)),
        Out::Obj(number) => Ok(SymValue::Obj(number)),
        Out::Literal(number) => Ok(SymValue::Literal(number)),
        Out::New(number) => Ok(SymValue::New(number)),
        Out::Int(_) => Err(RowStop::Malformed),
    }
}

/// As in `x1.0`: the slot of that number of the object that local 1 is, be it as a location.
pub fn read_place(state: &SymState, word: &str) -> RowResult<Place> {
    let Some((object, slot)) = word.split_once('.') else {
        return Err(RowStop::Malformed);
    };
    let slot = read_number(slot)?;
    match state.resolved(plain_value(state, object)?) {
        SymValue::Obj(number) => Ok(Place::Pictured(number, slot)),
        SymValue::New(number) => Ok(Place::Made(number, slot)),
        _ => Err(RowStop::Malformed),
    }
}
