//! Questions to the crates that know nothing of classes: each line of the file `rows` has a question and its words, and the
//! program writes the line and the answer.
//!
//! The gate runs it over the files of `data/` and compares what it writes with `stdout`, so that a row costs no proof.
//! `examples/low/make.py` writes both: what is expected of operations on ints is what a Java virtual machine computes, and the
//! other answers were written by hand.
#![tactic(auto)]

mod endings;
mod heaps;
mod ints;
mod lists;
mod orders;
mod readers;
mod steps;
mod told;
mod trails;
mod words;

use endings::{append_bounds, append_ending};
use heaps::{append_heap, append_input, append_objects};
use ints::append_int;
use kb_outside::{FileShelf, OutSink, Shelf, Sink};
use kb_table::{RowResult, RowStop, Rows, read_words, send, write_rows};
use lists::{append_held, append_list};
use orders::{append_order, append_texts};
use readers::append_reading;
use std::alloc::Global;
use std::io;
use std::process::ExitCode;
use trails::append_trail;

/// Each row is answered by itself.
#[derive(Drop)]
struct Questions;

impl Rows for Questions {
    fn write_row<S: Shelf, W: Sink>(
        &mut self,
        alloc: Global,
        row: &str,
        _shelf: &mut S,
        out: &mut W,
    ) -> RowResult<()> {
        let mut text = row.as_bytes().to_vec(alloc)?;
        text.extend_from_slice(b":")?;
        append_answer(alloc, row, &mut text)?;
        text.push(b'\n')?;
        send(out, text.as_slice())
    }
}

/// Writes what each row comes to.
fn main(rt: HostRuntime) -> io::Result<ExitCode> {
    let mut shelf = FileShelf::new(&rt);
    let mut out = OutSink::new(io::writer(&rt));
    write_rows(rt.alloc(), "rows", &mut Questions, &mut shelf, &mut out)?;
    Ok(ExitCode::from(0))
}

/// Appends the answer, each word of it behind a space.
fn append_answer(alloc: Global, row: &str, into: &mut Vec<u8>) -> RowResult<()> {
    let words = read_words(alloc, row, ' ')?;
    let [subject, asked @ ..] = words.as_slice() else {
        return Err(RowStop::Malformed);
    };
    match subject.as_str() {
        "int" => append_int(alloc, asked, into),
        "read" => append_reading(alloc, asked, into),
        "order" => append_order(alloc, asked, into),
        "texts" => append_texts(alloc, asked, into),
        "heap" => append_heap(alloc, asked, into),
        "input" => append_input(alloc, asked, into),
        "objects" => append_objects(alloc, asked, into),
        "ending" => append_ending(alloc, asked, into),
        "bounds" => append_bounds(alloc, asked, into),
        "row" => append_list(alloc, asked, into),
        "held" => append_held(alloc, asked, into),
        "trail" => append_trail(alloc, asked, into),
        _ => Err(RowStop::Malformed),
    }
}
