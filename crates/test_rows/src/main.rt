//! Texts of tests: each line of the file `rows` has a question, a number of literals and a text, and the program writes the line
//! and the answer.
//!
//! The gate runs it over the files of `data/` and compares what it writes with `stdout`, so that a row costs no proof.
//! `examples/tests/make.py` writes both; what is expected there follows from the grammar of texts of tests in `docs/USING.md`.
#![tactic(auto)]

mod answers;
mod heaps;
mod texts;

use answers::append_answer;
use kb_outside::{FileShelf, OutSink, Shelf, Sink};
use kb_table::{RowResult, RowStop, Rows, append, read_number, send, write_rows};
use std::alloc::Global;
use std::io;
use std::process::ExitCode;
use texts::read_text;

/// Each row is answered by itself.
#[derive(Drop)]
struct TextRows;

impl Rows for TextRows {
    fn write_row<S: Shelf, W: Sink>(
        &mut self,
        alloc: Global,
        row: &str,
        _shelf: &mut S,
        out: &mut W,
    ) -> RowResult<()> {
        let mut text = Vec::new(alloc);
        append_row(alloc, row, &mut text)?;
        send(out, text.as_slice())
    }
}

/// Writes what each row comes to.
fn main(rt: HostRuntime) -> io::Result<ExitCode> {
    let mut shelf = FileShelf::new(&rt);
    let mut out = OutSink::new(io::writer(&rt));
    write_rows(rt.alloc(), "rows", &mut TextRows, &mut shelf, &mut out)?;
    Ok(ExitCode::from(0))
}

/// Appends a row and the answer to its question.
fn append_row(alloc: Global, row: &str, into: &mut Vec<u8>) -> RowResult<()> {
    append("> ", into)?;
    append(row, into)?;
    append("\n", into)?;
    match row.split_once(' ') {
        Some((question, words)) => append_asked(alloc, question, words, into),
        None => Err(RowStop::Malformed),
    }
}

fn append_asked(alloc: Global, question: &str, words: &str, into: &mut Vec<u8>) -> RowResult<()> {
    let Some((literals, spelled)) = words.split_once(' ') else {
        return Err(RowStop::Malformed);
    };
    let literals = read_number(literals)?;
    let text = read_text(alloc, spelled)?;
    append_answer(alloc, question, literals, text.as_slice(), into)
}
