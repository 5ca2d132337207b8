//! Exploration on a table of rows: each row of the file `rows` has a method over ints, bounds, and what an oracle is told to do
//! at which of its calls. The program writes the row, the paths that are listed or the one at which the exploration stops,
//! whether the inputs that the paths carry are as the paths say, and what the oracle has counted.
//!
//! The gate runs it over the files of `data/` and compares what it writes with `stdout`, so that a row costs no proof. What is
//! expected there was written by hand; which model the solver chooses is free, so that arguments stand there only where the
//! conditions leave no choice.
#![tactic(auto)]

mod carried;
mod exploring;
mod listed;
mod rows;
mod telling;

use exploring::append_row;
use kb_load::{InWorlds, WorldRows, read_world};
use kb_outside::{FileShelf, OutSink, Shelf, Sink};
use kb_table::{RowResult, read_words, send, write_rows};
use kb_world::World;
use std::alloc::Global;
use std::io;
use std::process::ExitCode;

/// Each row is an exploration of its own.
#[derive(Drop)]
struct Explorations;

impl WorldRows for Explorations {
    fn write_in_world<W: Sink>(
        &mut self,
        alloc: Global,
        world: &World,
        row: &str,
        out: &mut W,
    ) -> RowResult<()> {
        let mut text = Vec::new(alloc);
        append_row(alloc, world, row, &mut text)?;
        send(out, text.as_slice())
    }
}

/// Writes what each row comes to.
fn main(rt: HostRuntime) -> io::Result<ExitCode> {
    let mut shelf = FileShelf::new(&rt);
    let mut out = OutSink::new(io::writer(&rt));
    write_table(rt.alloc(), &mut shelf, &mut out)?;
    Ok(ExitCode::from(0))
}

fn write_table<S: Shelf, W: Sink>(alloc: Global, shelf: &mut S, out: &mut W) -> RowResult<()> {
    let names = read_words(alloc, "Paths.class", ' ')?;
    let world = read_world(alloc, names.as_slice(), shelf)?;
    let mut rows = InWorlds {
        rows: Explorations,
        world: Some(world),
    };
    write_rows(alloc, "rows", &mut rows, shelf, out)
}
