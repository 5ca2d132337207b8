//! Class files and the code of methods by their bytes: each line of the file `rows` has a name, a question and bytes, and the
//! program writes the name and the answer.
//!
//! The gate runs it over the files of `data/` and compares what it writes with `stdout`, so that a row costs no proof.
//! `examples/bytes/make.py` writes both; what is expected there follows from JVMS 8 chapters 4 and 6, and from `javap`.
#![tactic(auto)]

mod bytes;
mod classes;
mod codes;
mod spoiled;

use bytes::read_bytes;
use classes::append_class_answer;
use codes::append_code_answer;
use kb_outside::{FileShelf, OutSink, Shelf, Sink};
use kb_table::{RowResult, RowStop, Rows, send, write_rows};
use spoiled::{append_changes, append_cuts};
use std::alloc::Global;
use std::io;
use std::process::ExitCode;

/// Each row is answered by itself.
#[derive(Drop)]
struct ByteRows;

impl Rows for ByteRows {
    fn write_row<S: Shelf, W: Sink>(
        &mut self,
        alloc: Global,
        row: &str,
        shelf: &mut S,
        out: &mut W,
    ) -> RowResult<()> {
        let mut text = String::new(alloc);
        append_row(alloc, row, shelf, &mut text)?;
        send(out, text.as_bytes())
    }
}

/// Writes what each row comes to.
fn main(rt: HostRuntime) -> io::Result<ExitCode> {
    let mut shelf = FileShelf::new(&rt);
    let mut out = OutSink::new(io::writer(&rt));
    write_rows(rt.alloc(), "rows", &mut ByteRows, &mut shelf, &mut out)?;
    Ok(ExitCode::from(0))
}

/// Appends the name of a row and the answer to its question.
fn append_row<S: Shelf>(
    alloc: Global,
    row: &str,
    shelf: &mut S,
    into: &mut String,
) -> RowResult<()> {
    let Some((name, asked)) = row.split_once(": ") else {
        return Err(RowStop::Malformed);
    };
    into.push_str(name)?;
    into.push_str(": ")?;
    append_asked(alloc, asked, shelf, into)?;
    Ok(into.push_str("\n")?)
}

fn append_asked<S: Shelf>(
    alloc: Global,
    asked: &str,
    shelf: &mut S,
    into: &mut String,
) -> RowResult<()> {
    let Some((question, words)) = asked.split_once(' ') else {
        return Err(RowStop::Malformed);
    };
    let (spelled, detail) = match words.split_once(' ') {
        Some(parts) => parts,
        None => (words, ""),
    };
    let bytes = read_bytes(alloc, spelled, shelf)?;
    append_answer(alloc, question, bytes.as_slice(), detail, into)
}

/// Appends the answer to a question about a class file, about one that is cut or spoiled, or about code.
fn append_answer(
    alloc: Global,
    question: &str,
    bytes: &[u8],
    detail: &str,
    into: &mut String,
) -> RowResult<()> {
    match question {
        "class" | "entry" | "field" | "method" | "body" => {
            append_class_answer(alloc, question, bytes, detail, into)
        }
        "cuts" => append_cuts(alloc, bytes, into),
        "changes" => append_changes(alloc, bytes, detail, into),
        _ => append_code_answer(alloc, question, bytes, detail, into),
    }
}
