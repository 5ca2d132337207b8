//! Names, descriptors and targets: each line of the file `rows` has a question and a text, and the program writes the line and
//! the answer.
//!
//! The gate runs it over the files of `data/` and compares what it writes with `stdout`, so that a row costs no proof. Both are
//! written by hand; what is expected there follows from JVMS 8 section 4.3 and from the spelling of names in `docs/USING.md`.
#![tactic(auto)]

mod answers;
mod texts;

use answers::append_answer;
use kb_outside::{FileShelf, OutSink, Shelf, Sink};
use kb_table::{RowResult, RowStop, Rows, append, send, write_rows};
use std::alloc::Global;
use std::io;
use std::process::ExitCode;
use texts::read_text;

/// Each row is answered by itself.
#[derive(Drop)]
struct NameRows;

impl Rows for NameRows {
    fn write_row<S: Shelf, W: Sink>(
        &mut self,
        alloc: Global,
        row: &str,
        _shelf: &mut S,
        out: &mut W,
    ) -> RowResult<()> {
        let mut text = Vec::new(alloc);
        append_row(alloc, row, &mut text)?;
        send(out, text.as_slice())
    }
}

/// Writes what each row comes to.
fn main(rt: HostRuntime) -> io::Result<ExitCode> {
    let mut shelf = FileShelf::new(&rt);
    let mut out = OutSink::new(io::writer(&rt));
    write_rows(rt.alloc(), "rows", &mut NameRows, &mut shelf, &mut out)?;
    Ok(ExitCode::from(0))
}

/// Appends a row and the answer to its question.
fn append_row(alloc: Global, row: &str, into: &mut Vec<u8>) -> RowResult<()> {
    append("> ", into)?;
    append(row, into)?;
    append("\n", into)?;
    append_asked(alloc, row, into)?;
    append("\n", into)
}

fn append_asked(alloc: Global, row: &str, into: &mut Vec<u8>) -> RowResult<()> {
    let Some((question, spelled)) = row.split_once(' ') else {
        return Err(RowStop::Malformed);
    };
    let text = read_text(alloc, spelled)?;
    append_answer(alloc, question, text.as_slice(), into)
}
