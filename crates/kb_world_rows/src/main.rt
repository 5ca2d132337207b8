//! Questions to class files, to the classes that they are, and to their worlds: each line of the file `rows` has a question, two
//! words for it (`-` where it takes fewer) and class files, and the program writes the line and the answer.
//!
//! The gate runs it over the files of `data/` and compares what it writes with `stdout`, so that a row costs no proof. What
//! is expected there follows from the class files as `javap -v` shows them, by JVMS 8 chapters 4 and 5.
#![tactic(auto)]

mod answers;
mod formats;
mod loaded;
mod texts;

use answers::write_answer;
use formats::write_fault;
use kb_load::read_world;
use kb_outside::{FileShelf, OutSink, Shelf, Sink};
use kb_table::{RowResult, RowStop, Rows, read_words, send, write_rows};
use loaded::write_loaded;
use std::alloc::Global;
use std::io;
use std::process::ExitCode;
use texts::add;

/// Each row is answered by itself.
#[derive(Drop)]
struct Questions;

impl Rows for Questions {
    fn write_row<S: Shelf, W: Sink>(
        &mut self,
        alloc: Global,
        row: &str,
        shelf: &mut S,
        out: &mut W,
    ) -> RowResult<()> {
        let mut text = Vec::new(alloc);
        add_row(row, &mut text)?;
        write_of_row(alloc, row, shelf, &mut text)?;
        send(out, text.as_slice())
    }
}

/// Writes what each row comes to.
fn main(rt: HostRuntime) -> io::Result<ExitCode> {
    let mut shelf = FileShelf::new(&rt);
    let mut out = OutSink::new(io::writer(&rt));
    write_rows(rt.alloc(), "rows", &mut Questions, &mut shelf, &mut out)?;
    Ok(ExitCode::from(0))
}

fn add_row(row: &str, text: &mut Vec<u8>) -> RowResult<()> {
    add("> ", text)?;
    add(row, text)?;
    add("\n", text)
}

fn write_of_row<S: Shelf>(
    alloc: Global,
    row: &str,
    shelf: &mut S,
    text: &mut Vec<u8>,
) -> RowResult<()> {
    let words = read_words(alloc, row, ' ')?;
    write_asked(alloc, words.as_slice(), shelf, text)
}

/// Writes the answer of the class or of the world that the words name, or that there is none.
fn write_asked<S: Shelf>(
    alloc: Global,
    words: &[String],
    shelf: &mut S,
    text: &mut Vec<u8>,
) -> RowResult<()> {
    let [question, first, second, files @ ..] = words else {
        return Err(RowStop::Malformed);
    };
    if let [file] = files {
        match question.as_str() {
            "format" => return write_fault(alloc, first.as_str(), file.as_str(), shelf, text),
            "loaded" => {
                let words = (first.as_str(), second.as_str(), file.as_str());
                return write_loaded(alloc, words, shelf, text);
            }
            _ => {}
        }
    }
    let words = (question.as_str(), first.as_str(), second.as_str());
    write_in_world(alloc, words, files, shelf, text)
}

fn write_in_world<S: Shelf>(
    alloc: Global,
    words: (&str, &str, &str),
    files: &[String],
    shelf: &mut S,
    text: &mut Vec<u8>,
) -> RowResult<()> {
    match read_world(alloc, files, shelf) {
        Ok(world) => write_answer(alloc, world.get(), words, text),
        Err(_) => add("no world\n", text),
    }
}
