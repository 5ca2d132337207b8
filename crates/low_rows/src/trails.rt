//! Cells that are changed by their trail, and undone to marks.

use crate::told::append_numbers;
use crate::words::read_list;
use kb_table::{RowResult, RowStop, kept, read_number, read_words};
use kb_trail::Trail;
use std::alloc::Global;
use std::marker::Model;

/// Cells that are changed by their trail alone. Contracts see the cells.
#[derive(Drop)]
struct Trailed {
    cells: Vec<u32>,
    trail: Trail<u32>,
}

impl Model for Trailed {
    ghost use Rattle.std.specs.Prelude.{ℕ, List};
    ghost use Rattle.kb_trail.specs.Trail.{Reaches};

    ghost Value = { List ℕ };

    ghost view = { λ trailed. trailed.cells.items };

    ghost invariant = { λ trailed. Reaches trailed.cells.items trailed.trail };
}

impl Trailed {
    fn new(alloc: Global, cells: Vec<u32>) -> Trailed {
        Trailed {
            cells,
            trail: Trail::new(alloc),
        }
    }

    fn set(&mut self, place: usize, value: u32) -> RowResult<()> {
        if place >= self.cells.len() {
            return Err(RowStop::Malformed);
        }
        kept(self.trail.set(&mut self.cells, place, value))
    }

    fn undo_to(&mut self, mark: usize) -> RowResult<()> {
        if mark > self.trail.mark() {
            return Err(RowStop::Malformed);
        }
        self.trail.undo_to(&mut self.cells, mark);
        Ok(())
    }
}

/// Appends some cells where a step tells them: `tell` as they are, and `undo` with the number of a mark as they are when they are
/// undone to it. Other steps are `mark`, which has the next number, and `set` with a place and a value.
pub fn append_trail(alloc: Global, asked: &[String], into: &mut Vec<u8>) -> RowResult<()> {
    let [cells, steps @ ..] = asked else {
        return Err(RowStop::Malformed);
    };
    let mut trailed = Trailed::new(alloc, read_list(alloc, cells.as_str())?);
    let mut marks = Vec::new(alloc);
    for step in steps {
        append_step(alloc, step.as_str(), &mut trailed, &mut marks, into)?;
    }
    Ok(())
}

fn append_step(
    alloc: Global,
    step: &str,
    trailed: &mut Trailed,
    marks: &mut Vec<usize>,
    into: &mut Vec<u8>,
) -> RowResult<()> {
    let words = read_words(alloc, step, ':')?;
    match words.as_slice() {
        [way] if way.as_str() == "mark" => Ok(marks.push(trailed.trail.mark())?),
        [way] if way.as_str() == "tell" => append_numbers(alloc, trailed.cells.as_slice(), into),
        [way, mark] if way.as_str() == "undo" => {
            undo(read_number(mark.as_str())?, trailed, marks)?;
            append_numbers(alloc, trailed.cells.as_slice(), into)
        }
        [way, place, value] if way.as_str() == "set" => {
            let place = read_number(place.as_str())?;
            trailed.set(place as usize, read_number(value.as_str())?)
        }
        _ => Err(RowStop::Malformed),
    }
}

/// Undoes to the mark of that number, and forgets the later ones.
fn undo(number: u32, trailed: &mut Trailed, marks: &mut Vec<usize>) -> RowResult<()> {
    match marks.get(number as usize).copied() {
        Some(mark) => {
            marks.truncate((number as usize).saturating_add(1));
            trailed.undo_to(mark)
        }
        None => Err(RowStop::Malformed),
    }
}
