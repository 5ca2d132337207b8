//! Assembler texts: each line of the file `rows` has a name, a question and a text, and the program writes the name and the
//! answer.
//!
//! The gate runs it over the files of `data/` and compares what it writes with `stdout`, so that a row costs no proof.
//! `examples/assemble/make.py` writes both; what is expected there follows from the format of the texts, from JVMS 8 chapter 6,
//! and from `javap`.
#![tactic(auto)]

mod answers;
mod lines;
mod spoiled;
mod texts;

use answers::append_answer;
use kb_outside::{FileShelf, OutSink, Shelf, Sink};
use kb_table::{RowResult, RowStop, Rows, send, write_rows};
use std::alloc::Global;
use std::io;
use std::process::ExitCode;
use texts::read_text;

/// Each row is answered by itself.
#[derive(Drop)]
struct AssemblerRows;

impl Rows for AssemblerRows {
    fn write_row<S: Shelf, W: Sink>(
        &mut self,
        alloc: Global,
        row: &str,
        shelf: &mut S,
        out: &mut W,
    ) -> RowResult<()> {
        let mut text = String::new(alloc);
        append_row(alloc, row, shelf, &mut text)?;
        send(out, text.as_bytes())
    }
}

/// Writes what each row comes to.
fn main(rt: HostRuntime) -> io::Result<ExitCode> {
    let mut shelf = FileShelf::new(&rt);
    let mut out = OutSink::new(io::writer(&rt));
    write_rows(rt.alloc(), "rows", &mut AssemblerRows, &mut shelf, &mut out)?;
    Ok(ExitCode::from(0))
}

/// Appends the name of a row and the answer to its question.
fn append_row<S: Shelf>(
    alloc: Global,
    row: &str,
    shelf: &mut S,
    into: &mut String,
) -> RowResult<()> {
    let Some((name, asked)) = row.split_once(": ") else {
        return Err(RowStop::Malformed);
    };
    into.push_str(name)?;
    into.push_str(": ")?;
    append_asked(alloc, asked, shelf, into)?;
    Ok(into.push_str("\n")?)
}

fn append_asked<S: Shelf>(
    alloc: Global,
    asked: &str,
    shelf: &mut S,
    into: &mut String,
) -> RowResult<()> {
    let Some((question, spelled)) = asked.split_once(' ') else {
        return Err(RowStop::Malformed);
    };
    let text = read_text(alloc, spelled, shelf)?;
    append_answer(alloc, question, text.as_slice(), into)
}
