//! Paths and inputs on tables of rows. A table has paths in the lines of a report and inputs in those of a test. For each input
//! the program writes where the picture of the path lies in it, whether it is an instance of the path, how its run ends by the
//! path, and whether the machine's run ends so. Of a path it also writes the alternatives for a slot that is read for the first
//! time or for a location that is looked into, and the input that the path carries.
//!
//! The gate runs it over the files of `data/` and compares what it writes with `stdout`, so that a row costs no proof. What is
//! expected there was written by hand.
#![tactic(auto)]

mod choosing;

use choosing::add_choices;
use kb_asked::{Asked, add_itself, add_line, nothing_asked};
use kb_load::{InWorlds, WorldRows, read_world};
use kb_outside::{FileShelf, OutSink, Shelf, Sink};
use kb_path_lines::split;
use kb_table::{RowResult, read_words, send, write_rows};
use kb_world::World;
use std::alloc::Global;
use std::io;
use std::process::ExitCode;

/// Rows make a path and an input, and ask of them.
#[derive(Drop)]
struct PathRows {
    asked: Asked,
}

impl WorldRows for PathRows {
    fn write_in_world<W: Sink>(
        &mut self,
        alloc: Global,
        world: &World,
        row: &str,
        out: &mut W,
    ) -> RowResult<()> {
        let mut text = Vec::new(alloc);
        add_row(alloc, world, row, &mut self.asked, &mut text)?;
        send(out, text.as_slice())
    }
}

/// Adds what a row comes to. A row `choices` asks of the picture of the path before it.
fn add_row(
    alloc: Global,
    world: &World,
    row: &str,
    asked: &mut Asked,
    text: &mut Vec<u8>,
) -> RowResult<()> {
    let (word, rest) = split(row);
    match word.as_bytes() {
        b"choices" => {
            add_itself(row, text)?;
            add_choices(alloc, world, &asked.path.get().picture, rest, text)
        }
        _ => add_line(alloc, world, row, asked, text),
    }
}

/// Writes the answers of all rows.
fn main(rt: HostRuntime) -> io::Result<ExitCode> {
    let mut shelf = FileShelf::new(&rt);
    let mut out = OutSink::new(io::writer(&rt));
    write_tables(rt.alloc(), &mut shelf, &mut out)?;
    Ok(ExitCode::from(0))
}

fn write_tables<S: Shelf, W: Sink>(alloc: Global, shelf: &mut S, out: &mut W) -> RowResult<()> {
    write_table(alloc, "Node.class", "rows", shelf, out)?;
    write_table(alloc, "Node.class Low.class", "rows-with-low", shelf, out)?;
    write_table(alloc, "Node.class", "choices", shelf, out)?;
    write_table(
        alloc,
        "H.class S.class A.class B.class",
        "choices-with-types",
        shelf,
        out,
    )?;
    write_table(
        alloc,
        "Shape.class Lonely.class Bare.class Square.class Holder.class",
        "choices-with-arrays",
        shelf,
        out,
    )
}

/// Writes the answers of a table, in the world of these class files.
fn write_table<S: Shelf, W: Sink>(
    alloc: Global,
    classes: &str,
    table: &str,
    shelf: &mut S,
    out: &mut W,
) -> RowResult<()> {
    let names = read_words(alloc, classes, ' ')?;
    let world = read_world(alloc, names.as_slice(), shelf)?;
    let mut rows = InWorlds {
        rows: PathRows {
            asked: nothing_asked(alloc)?,
        },
        world: Some(world),
    };
    write_rows(alloc, table, &mut rows, shelf, out)
}
