//! The rows of the table.

use kb_heap::{Bounds, RunBounds};
use kb_names::{Target, read_target};
use kb_rows::Held;
use kb_table::{RowResult, RowStop, read_number};
use std::alloc::Global;

/// A row: a method, its bounds, how many paths are listed, the budget of its oracle, and the numbers of the listed paths whose
/// arguments are written.
#[derive(Drop)]
pub struct TableRow {
    pub target: Target,
    pub bounds: Bounds,
    pub paths: u32,
    pub budget: u32,
    pub shown: Vec<u32>,
}

/// The bounds of a row that names none.
const BOUNDS: Bounds = Bounds {
    k: 3,
    array: 3,
    run: RunBounds {
        alloc: 16,
        loops: 10,
        depth: 16,
        steps: 2000,
    },
};

/// The row of a line: a target, and numbers, as in `loops=3`. What the oracle is told stands in other words.
pub fn read_row(alloc: Global, line: &str) -> RowResult<Held<TableRow>> {
    let mut row = row_of(alloc, line)?;
    for word in line.split(' ').skip(1) {
        if let Some((name, number)) = word.split_once('=') {
            set(row.get_mut(), name, read_number(number)?)?;
        }
    }
    Ok(row)
}

/// The row of the target of a line alone.
fn row_of(alloc: Global, line: &str) -> RowResult<Held<TableRow>> {
    let target = match line.split_once(' ') {
        Some((target, _)) => target,
        None => line,
    };
    match read_target(alloc, target.as_bytes()) {
        Ok(target) => without_numbers(alloc, target),
        Err(_) => Err(RowStop::Malformed),
    }
}

fn without_numbers(alloc: Global, target: Target) -> RowResult<Held<TableRow>> {
    let row = TableRow {
        target,
        bounds: BOUNDS,
        paths: 1000,
        budget: 2000,
        shown: Vec::new(alloc),
    };
    Ok(Held::new(alloc, row)?)
}

fn set(row: &mut TableRow, name: &str, number: u32) -> RowResult<()> {
    match name.as_bytes() {
        b"loops" => row.bounds.run.loops = number,
        b"steps" => row.bounds.run.steps = number,
        b"paths" => row.paths = number,
        b"budget" => row.budget = number,
        b"args" => row.shown.push(number)?,
        _ => return Err(RowStop::Malformed),
    }
    Ok(())
}
