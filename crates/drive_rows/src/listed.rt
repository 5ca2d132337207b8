//! Paths, a line each.

use crate::rows::TableRow;
use kb_picture::Init;
use kb_report_text::{Report, report_text};
use kb_rows::{Held, Row};
use kb_table::{RowResult, RowStop, kept};
use kb_world::World;
use std::alloc::Global;

/// Lines that stand before the block of the first path.
const HEAD: usize = 3;

/// The report of a row, without paths.
pub fn report_of(alloc: Global, row: &TableRow) -> RowResult<Held<Report>> {
    let report = Report {
        target: kept(row.target.copied(alloc))?,
        init: Init::Lazy,
        bounds: row.bounds,
        paths: row.paths,
        budget: row.budget,
        leaves: Row::new(alloc),
    };
    Ok(Held::new(alloc, report)?)
}

/// Appends the block of each path of the report as one line, without the slots that are seen, and with its input where the row
/// wants it.
pub fn append_paths(
    alloc: Global,
    world: &World,
    row: &TableRow,
    report: &Report,
    into: &mut Vec<u8>,
) -> RowResult<()> {
    let text = kept(report_text(alloc, world, report))?;
    match String::from_utf8(text) {
        Ok(text) => append_lines(row, text.as_str(), into),
        Err(_) => Err(RowStop::Malformed),
    }
}

/// Appends the lines of a report behind its head, those of one block in one line.
fn append_lines(row: &TableRow, text: &str, into: &mut Vec<u8>) -> RowResult<()> {
    let mut front: &[u8] = b"";
    let mut next: u32 = 0;
    let mut shown = false;
    for line in text.lines().skip(HEAD) {
        if line.starts_with("path ") {
            into.extend_from_slice(front)?;
            front = b"\n";
            shown = is_shown(row, next);
            next = next.saturating_add(1);
        }
        if is_written(line, shown) {
            append_line(line, into)?;
        }
    }
    into.extend_from_slice(front)?;
    Ok(())
}

/// Whether the row wants the input of the listed path of that number.
fn is_shown(row: &TableRow, number: u32) -> bool {
    row.shown.as_slice().iter().any(|shown| *shown == number)
}

/// Whether a line of a report stands in that of its path.
fn is_written(line: &str, shown: bool) -> bool {
    if line.starts_with("see ") || line.starts_with("total ") {
        return false;
    }
    shown || !is_of_input(line)
}

fn is_of_input(line: &str) -> bool {
    line.starts_with("arg ") || line.starts_with("in ")
}

fn append_line(line: &str, into: &mut Vec<u8>) -> RowResult<()> {
    if !line.starts_with("path ") {
        into.extend_from_slice(b" | ")?;
    }
    into.extend_from_slice(line.as_bytes())?;
    Ok(())
}
