//! The rows of the table.

use kb_heap::{Heap, Input, Row, RunBounds, Value};
use kb_names::{Target, read_target};
use kb_rows::Held;
use kb_table::{RowResult, RowStop, read_int, read_number};
use std::alloc::Global;

/// A row: a method, what it is run on, within which bounds, and how often.
#[derive(Drop)]
pub struct TableRow {
    pub target: Target,
    pub input: Input,
    pub bounds: RunBounds,
    pub times: u32,
}

/// The bounds of a row that names none.
const BOUNDS: RunBounds = RunBounds {
    alloc: 16,
    loops: 10,
    depth: 16,
    steps: 2000,
};

/// The row of a line: a target, arguments, which are ints or `null`, and bounds, as in `loops=3`; `times=1000` says how often
/// it is run.
pub fn read_row(alloc: Global, line: &str) -> RowResult<Held<TableRow>> {
    let mut row = row_of(alloc, line)?;
    for word in line.split(' ').skip(1) {
        add_word(row.get_mut(), word)?;
    }
    Ok(row)
}

/// The row of the target of a line alone.
fn row_of(alloc: Global, line: &str) -> RowResult<Held<TableRow>> {
    let target = match line.split_once(' ') {
        Some((target, _)) => target,
        None => line,
    };
    match read_target(alloc, target.as_bytes()) {
        Ok(target) => without_arguments(alloc, target),
        Err(_) => Err(RowStop::Malformed),
    }
}

fn without_arguments(alloc: Global, target: Target) -> RowResult<Held<TableRow>> {
    let row = TableRow {
        target,
        input: Input {
            heap: Heap::new(alloc),
            args: Row::new(alloc),
        },
        bounds: BOUNDS,
        times: 1,
    };
    Ok(Held::new(alloc, row)?)
}

/// An argument, or a bound.
fn add_word(row: &mut TableRow, word: &str) -> RowResult<()> {
    match word.split_once('=') {
        Some((name, number)) => set(row, name, read_number(number)?),
        None => Ok(row.input.args.push(value_of(word)?)?),
    }
}

fn set(row: &mut TableRow, name: &str, number: u32) -> RowResult<()> {
    match name.as_bytes() {
        b"alloc" => row.bounds.alloc = number,
        b"loops" => row.bounds.loops = number,
        b"depth" => row.bounds.depth = number,
        b"steps" => row.bounds.steps = number,
        b"times" => row.times = number,
        _ => return Err(RowStop::Malformed),
    }
    Ok(())
}

fn value_of(word: &str) -> RowResult<Value> {
    if word == "null" {
        return Ok(Value::Null);
    }
    Ok(Value::Int(read_int(word)?))
}
