//! What is written of each row.
ghost use Rattle.std.specs.Prelude.{◌≡◌, OnOk};
ghost use Rattle.kb_outside.specs.Outside.{Grows};

use crate::faults::{RowResult, RowStop};
use crate::files::read_table;
use kb_outside::{Shelf, Sink, send_all};
use std::alloc::Global;

/// What a program makes of the rows of a table, one after the other.
pub trait Rows {
    /// Writes what a row comes to. The shelf has the files that it names.
    fn write_row<S: Shelf, W: Sink>(
        &mut self,
        alloc: Global,
        row: &str,
        shelf: &mut S,
        out: &mut W,
    ) -> RowResult<()>;
}

/// Writes what each row of the table of that name comes to. Empty lines and those that begin with `#` are no rows.
pub fn write_rows<R: Rows, S: Shelf, W: Sink>(
    alloc: Global,
    name: &str,
    rows: &mut R,
    shelf: &mut S,
    out: &mut W,
) -> RowResult<()> {
    let table = read_table(alloc, name, shelf)?;
    for row in table.as_str().lines() {
        if !row.is_empty() && !row.starts_with("#") {
            rows.write_row(alloc, row, shelf, out)?;
        }
    }
    Ok(())
}

/// Writes the whole text.
pub fn send<W: Sink>(out: &mut W, text: &[u8]) -> RowResult<()>
    ensures { OnOk result (Grows (W.written out.old) (W.written out.new) text.now) }
{
    match send_all(out, text) {
        Ok(()) => Ok(()),
        Err(_) => Err(RowStop::NotSent),
    }
}
