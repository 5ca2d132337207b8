//! The machine on a table of rows: each row of the file `rows` has a method of class files, its arguments and the bounds of its
//! run, and the program writes how the run ends.
//!
//! The gate runs it over the files of `data/` and compares what it writes with `stdout`, so that a row costs no proof. What is
//! expected there is what a Java virtual machine makes of the same class files, or what a row states by hand;
//! `examples/machine/` has both.
#![tactic(auto)]

mod endings;
mod rows;

ghost use Rattle.kb_world.specs.Reach.{IsAccepted};

use endings::append_ending;
use kb_class::MethodId;
use kb_fits::fits_types;
use kb_load::{InWorlds, WorldRows, reached};
use kb_machine::run;
use kb_outside::{FileShelf, OutSink, Sink};
use kb_table::{RowResult, RowStop, append, send, write_rows};
use kb_world::World;
use rows::{TableRow, read_row};
use std::alloc::Global;
use std::io;
use std::process::ExitCode;

/// Each run is made by itself.
#[derive(Drop)]
struct Runs;

impl WorldRows for Runs {
    fn write_in_world<W: Sink>(
        &mut self,
        alloc: Global,
        world: &World,
        row: &str,
        out: &mut W,
    ) -> RowResult<()> {
        let mut text = Vec::new(alloc);
        append_run(alloc, world, row, &mut text)?;
        send(out, text.as_slice())?;
        send(out, b"\n")
    }
}

/// Writes how each row ends.
fn main(rt: HostRuntime) -> io::Result<ExitCode> {
    let mut shelf = FileShelf::new(&rt);
    let mut out = OutSink::new(io::writer(&rt));
    let mut rows = InWorlds {
        rows: Runs,
        world: None,
    };
    write_rows(rt.alloc(), "rows", &mut rows, &mut shelf, &mut out)?;
    Ok(ExitCode::from(0))
}

/// Appends a line, and how the run of its row ends, or why there is none.
fn append_run(alloc: Global, world: &World, line: &str, into: &mut Vec<u8>) -> RowResult<()> {
    append(line, into)?;
    append(": ", into)?;
    let row = read_row(alloc, line)?;
    append_run_of(alloc, world, row.get(), into)
}

fn append_run_of(
    alloc: Global,
    world: &World,
    row: &TableRow,
    into: &mut Vec<u8>,
) -> RowResult<()> {
    let Some(method) = reached(alloc, world, &row.target) else {
        return append("cannot be run", into);
    };
    if !fits_types(world, method, &row.input) {
        return append("does not take these arguments", into);
    }
    append_runs(alloc, world, method, row, into)
}

/// Runs a method as often as the row says, and appends how the last run ends.
fn append_runs(
    alloc: Global,
    world: &World,
    method: MethodId,
    row: &TableRow,
    into: &mut Vec<u8>,
) -> RowResult<()>
    requires { IsAccepted world.now method }
{
    for _ in 1..row.times {
        run_once(alloc, world, method, row)?;
    }
    append_last(alloc, world, method, row, into)
}

fn run_once(alloc: Global, world: &World, method: MethodId, row: &TableRow) -> RowResult<()>
    requires { IsAccepted world.now method }
{
    match run(alloc, world, method, &row.input, &row.bounds) {
        Ok(_) => Ok(()),
        Err(_) => Err(RowStop::NoMemory),
    }
}

/// Appends how the last of the runs of a row ends.
fn append_last(
    alloc: Global,
    world: &World,
    method: MethodId,
    row: &TableRow,
    into: &mut Vec<u8>,
) -> RowResult<()>
    requires { IsAccepted world.now method }
{
    match run(alloc, world, method, &row.input, &row.bounds) {
        Ok(ended) => append_ending(alloc, &ended.0, &ended.1, into),
        Err(_) => Err(RowStop::NoMemory),
    }
}
