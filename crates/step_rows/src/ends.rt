//! What a state has met, in the lines of a report.

ghost use Rattle.kb_ways.specs.Reached.{IsReached};

use crate::rows::TableRow;
use kb_frames::{SymState, paths_are_well_formed};
use kb_picture::{Init, Leaf, Path};
use kb_report_text::{Report, Row, report_text};
use kb_rows::Held;
use kb_table::{RowResult, RowStop, append, kept};
use kb_world::World;
use std::alloc::Global;

/// Lines that stand before the block of the first path.
const HEAD: usize = 3;

/// Appends the block of the path that the state is on, where nobody asks whether it has an input.
pub fn append_met(
    alloc: Global,
    world: &World,
    row: &TableRow,
    state: &SymState,
    into: &mut Vec<u8>,
) -> RowResult<()>
    requires { IsReached world.now state.now }
{
    let mut report = report_of(alloc, row)?;
    add_path(world, row, state, report.get_mut())?;
    append_report(alloc, world, report.get(), into)
}

/// The report of a row, without paths.
fn report_of(alloc: Global, row: &TableRow) -> RowResult<Held<Report>> {
    let report = Report {
        target: kept(row.target.copied(alloc))?,
        init: Init::Lazy,
        bounds: row.bounds,
        paths: 1,
        budget: 1,
        leaves: Row::new(alloc),
    };
    Ok(Held::new(alloc, report)?)
}

/// Adds the path that the state is on.
fn add_path(_world: &World, row: &TableRow, state: &SymState, report: &mut Report) -> RowResult<()>
    requires { IsReached _world.now state.now }
{
    paths_are_well_formed();
    match state.path(row.decisions.as_slice(), Leaf::Open) {
        Ok(path) => push_path(path, report),
        Err(_) => Err(RowStop::NoMemory),
    }
}

fn push_path(path: Path, report: &mut Report) -> RowResult<()> {
    Ok(report.leaves.push(path)?)
}

/// Appends the block of the path of a report.
fn append_report(
    alloc: Global,
    world: &World,
    report: &Report,
    into: &mut Vec<u8>,
) -> RowResult<()> {
    let text = kept(report_text(alloc, world, report))?;
    match String::from_utf8(text) {
        Ok(text) => append_block(text.as_str(), into),
        Err(_) => Err(RowStop::Malformed),
    }
}

/// Appends the lines between the head and the last one.
fn append_block(text: &str, into: &mut Vec<u8>) -> RowResult<()> {
    for line in text.lines().skip(HEAD) {
        if !line.starts_with("total ") {
            append(line, into)?;
            append("\n", into)?;
        }
    }
    Ok(())
}
