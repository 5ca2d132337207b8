//! Questions about the lines of logs.

use crate::dimacs_texts::unescaped;
use crate::formulas::read_log;
use kb_chain::Log;
use kb_log_text::{LineRefusal, write_log};
use kb_table::{RowResult, RowStop, kept};
use std::alloc::Global;

/// Appends what a line of text is with the lines of a log behind it.
pub fn append_log_lines(alloc: Global, log: &str, into: &mut String) -> RowResult<()> {
    let text = log_text(alloc, b"undecided 2\n", &read_log(alloc, log)?)?;
    append_lines(text.as_str(), into)
}

/// The log's lines behind that front.
pub fn log_text(alloc: Global, front: &[u8], log: &Log) -> RowResult<String> {
    let mut bytes = front.to_vec(alloc)?;
    kept(write_log(alloc, log, &mut bytes))?;
    kept(String::from_utf8(bytes))
}

/// Appends `read` and the lines of the log of a text, written again, or its first bad line.
pub fn append_log(alloc: Global, text: &str, into: &mut String) -> RowResult<()> {
    let text = unescaped(alloc, text)?;
    match kb_log_text::read_log(alloc, text.as_bytes()) {
        Ok(log) => append_lines(log_text(alloc, b"read\n", &log)?.as_str(), into),
        Err(LineRefusal::BadLine(number)) => Ok(write!(into, "line {number}")?),
        Err(LineRefusal::Stopped(_)) => Err(RowStop::NoMemory),
    }
}

/// Appends the lines, `/` for the end of each.
pub fn append_lines(text: &str, into: &mut String) -> RowResult<()> {
    for line in text.lines() {
        append_line(line, into)?;
    }
    Ok(())
}

/// Appends the line, and `/` for its end.
pub fn append_line(line: &str, into: &mut String) -> RowResult<()> {
    Ok(write!(into, "{line}/")?)
}
