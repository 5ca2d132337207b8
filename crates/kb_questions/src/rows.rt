//! Rows that set what is asked about, and rows that ask.

use kb_outside::Sink;
use kb_table::{RowResult, send};
use std::alloc::Global;

/// What rows ask about.
pub trait Subject {
    /// Reads what is asked about from now on, from its name and its text, and tells it.
    fn replace(
        &mut self,
        alloc: Global,
        name: &str,
        text: &str,
        into: &mut String,
    ) -> RowResult<()>;

    /// Appends the answer to a question, whose name is the first word of its row.
    fn append_answer(
        &self,
        alloc: Global,
        question: &str,
        words: &str,
        into: &mut String,
    ) -> RowResult<()>;
}

/// Writes a row and what it comes to: of a row with `: ` in it what is asked about from now on, of another one the answer.
pub fn write_answer<S: Subject, W: Sink>(
    alloc: Global,
    subject: &mut S,
    row: &str,
    out: &mut W,
) -> RowResult<()> {
    let mut text = String::new(alloc);
    append_row(alloc, subject, row, &mut text)?;
    send(out, text.as_str().trim_end().as_bytes())?;
    send(out, b"\n")
}

fn append_row<S: Subject>(
    alloc: Global,
    subject: &mut S,
    row: &str,
    into: &mut String,
) -> RowResult<()> {
    if let Some((name, text)) = row.split_once(": ") {
        return subject.replace(alloc, name, text, into);
    }
    write!(into, "{row}: ")?;
    let (question, words) = match row.split_once(' ') {
        Some(parts) => parts,
        None => (row, ""),
    };
    subject.append_answer(alloc, question, words, into)
}
