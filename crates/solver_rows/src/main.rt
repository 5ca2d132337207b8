//! Questions to the solver and to what it stands on: each line of the file `rows` says which formula the lines behind it ask
//! about, or has a question. The program writes the lines with what each question comes to.
//!
//! The gate runs it over `data/` and compares what it writes with `stdout`, so that a row costs no proof. Where what is
//! expected comes from stands in the rows; `examples/solver/make.py` writes those rows that are too long to write by hand.
#![tactic(auto)]

mod assignments;
mod dimacs_texts;
mod formulas;
mod heuristics;
mod log_lines;
mod questions;
mod searches;
mod subject;

use kb_outside::{FileShelf, OutSink, Shelf, Sink};
use kb_questions::write_answer;
use kb_table::{RowResult, Rows, write_rows};
use std::alloc::Global;
use std::io;
use std::process::ExitCode;
use subject::Asked;

impl Rows for Asked {
    fn write_row<S: Shelf, W: Sink>(
        &mut self,
        alloc: Global,
        row: &str,
        _shelf: &mut S,
        out: &mut W,
    ) -> RowResult<()> {
        write_answer(alloc, self, row, out)
    }
}

/// Writes what each row comes to.
fn main(rt: HostRuntime) -> io::Result<ExitCode> {
    let mut shelf = FileShelf::new(&rt);
    let mut out = OutSink::new(io::writer(&rt));
    let mut asked = Asked::new(rt.alloc())?;
    write_rows(rt.alloc(), "rows", &mut asked, &mut shelf, &mut out)?;
    Ok(ExitCode::from(0))
}
