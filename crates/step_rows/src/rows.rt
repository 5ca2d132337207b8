//! The rows of the table.

use kb_heap::{Bounds, RunBounds};
use kb_names::{Target, read_target};
use kb_rows::Held;
use kb_table::{RowResult, RowStop, read_number};
use std::alloc::Global;

/// A row: a method, its bounds, and the numbers of the alternatives that are taken where there are several.
#[derive(Drop)]
pub struct TableRow {
    pub target: Target,
    pub bounds: Bounds,
    pub decisions: Vec<u32>,
}

/// The bounds of a row that names none.
const BOUNDS: Bounds = Bounds {
    k: 3,
    array: 3,
    run: RunBounds {
        alloc: 16,
        loops: 10,
        depth: 16,
        steps: 2000,
    },
};

/// The row of a line: a target, bounds, as in `loops=3`, and decisions.
pub fn read_row(alloc: Global, line: &str) -> RowResult<Held<TableRow>> {
    let mut row = row_of(alloc, line)?;
    for word in line.split(' ').skip(1) {
        add_word(row.get_mut(), word)?;
    }
    Ok(row)
}

/// The row of the target of a line alone.
fn row_of(alloc: Global, line: &str) -> RowResult<Held<TableRow>> {
    let target = match line.split_once(' ') {
        Some((target, _)) => target,
        None => line,
    };
    match read_target(alloc, target.as_bytes()) {
        Ok(target) => without_decisions(alloc, target),
        Err(_) => Err(RowStop::Malformed),
    }
}

fn without_decisions(alloc: Global, target: Target) -> RowResult<Held<TableRow>> {
    let row = TableRow {
        target,
        bounds: BOUNDS,
        decisions: Vec::new(alloc),
    };
    Ok(Held::new(alloc, row)?)
}

/// A decision, or a bound.
fn add_word(row: &mut TableRow, word: &str) -> RowResult<()> {
    match word.split_once('=') {
        Some((name, number)) => set(&mut row.bounds, name, read_number(number)?),
        None => Ok(row.decisions.push(read_number(word)?)?),
    }
}

fn set(bounds: &mut Bounds, name: &str, number: u32) -> RowResult<()> {
    match name.as_bytes() {
        b"k" => bounds.k = number,
        b"array" => bounds.array = number,
        b"alloc" => bounds.run.alloc = number,
        b"loops" => bounds.run.loops = number,
        b"depth" => bounds.run.depth = number,
        b"steps" => bounds.run.steps = number,
        _ => return Err(RowStop::Malformed),
    }
    Ok(())
}
