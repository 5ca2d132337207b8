//! Questions to the oracles, on conditions, and to the pools of terms: each line of the file `rows` says which conditions the
//! lines behind it ask about, or has a question. The program writes the lines with what each question comes to.
//!
//! The gate runs it over `data/` and compares what it writes with `stdout`, so that a row costs no proof. Where what is
//! expected comes from stands in the rows; `examples/solver/make.py` writes those rows that are too long to write by hand.
#![tactic(auto)]

mod asking;
mod cuts;
mod pools;
mod questions;
mod subjects;
mod telling;
mod terms;
mod values;

use kb_outside::{FileShelf, OutSink, Shelf, Sink};
use kb_questions::write_answer;
use kb_table::{RowResult, Rows, write_rows};
use std::alloc::Global;
use std::io;
use std::process::ExitCode;
use subjects::Subjects;

impl Rows for Subjects {
    fn write_row<S: Shelf, W: Sink>(
        &mut self,
        alloc: Global,
        row: &str,
        _shelf: &mut S,
        out: &mut W,
    ) -> RowResult<()> {
        write_answer(alloc, self, row, out)
    }
}

/// Writes what each row comes to.
fn main(rt: HostRuntime) -> io::Result<ExitCode> {
    let mut shelf = FileShelf::new(&rt);
    let mut out = OutSink::new(io::writer(&rt));
    let mut subjects = Subjects::new(rt.alloc())?;
    write_rows(rt.alloc(), "rows", &mut subjects, &mut shelf, &mut out)?;
    Ok(ExitCode::from(0))
}
