//! The top call on a table of rows: each line of the file `rows` has the words of one call, and the program writes them, what
//! the call writes, and its status.
//!
//! The gate runs it over the files of `data/` and compares what it writes with `stdout`, so that a row costs no proof. What
//! is expected there follows from the formats and from The Java Virtual Machine Specification; of explorations it is what a
//! model in Python says (`examples/explore/model.py`).
#![tactic(auto)]

use kb_outside::{FileShelf, OutSink, Shelf, Sink};
use kb_table::{RowResult, read_table, read_words, send};
use kiasan::kiasan;
use std::io;
use std::process::ExitCode;
use std::thread::Threads;

/// Writes what each row comes to.
fn main(rt: HostRuntime) -> io::Result<ExitCode> {
    let mut shelf = FileShelf::new(&rt);
    let mut out = OutSink::new(io::writer(&rt));
    write_calls(&rt, &mut shelf, &mut out)?;
    Ok(ExitCode::from(0))
}

/// Writes the words of each row of the table `rows` and what they come to. Empty lines and those that begin with `#` are no rows.
/// The calls need the runtime, whose bounds no implementation of `kb_table`'s `Rows` may hand on.
fn write_calls<R: AllocGlobal + Threads + Sync, S: Shelf, W: Sink>(
    rt: &R,
    shelf: &mut S,
    out: &mut W,
) -> RowResult<()> {
    let table = read_table(rt.alloc(), "rows", shelf)?;
    for row in table.as_str().lines() {
        if !row.is_empty() && !row.starts_with("#") {
            write_call(rt, row, shelf, out)?;
        }
    }
    Ok(())
}

fn write_call<R: AllocGlobal + Threads + Sync, S: Shelf, W: Sink>(
    rt: &R,
    row: &str,
    shelf: &mut S,
    out: &mut W,
) -> RowResult<()> {
    let alloc = rt.alloc();
    let words = read_words(alloc, row, ' ')?;
    send(out, format!(in alloc; "> {row}\n")?.as_bytes())?;
    let status = kiasan(rt, words.as_slice(), shelf, out);
    send(
        out,
        format!(in alloc; "status {}\n", status.number())?.as_bytes(),
    )
}
