//! Reports from rows.

use kb_heap::{Bounds, RunBounds};
use kb_names::{Target, read_target};
use kb_path_lines::{add_carried, add_to_path, path_of, split};
use kb_picture::{Init, Path};
use kb_report_text::Report;
use kb_rows::{Held, Row};
use kb_table::{RowResult, RowStop, kept, read_number};
use std::alloc::Global;

/// The bounds when none is given.
const DEFAULTS: Bounds = Bounds {
    k: 3,
    array: 3,
    run: RunBounds {
        alloc: 16,
        loops: 10,
        depth: 16,
        steps: 2000,
    },
};

/// A report without paths: its target, `lazy` or `lazier`, and those settings that are not the usual ones, as in `paths=8`.
pub fn read_report(alloc: Global, text: &str) -> RowResult<Held<Report>> {
    let (target, words) = split(text);
    let mut report = report_on(alloc, target)?;
    for word in words.split(' ') {
        set(word, report.get_mut())?;
    }
    Ok(report)
}

fn report_on(alloc: Global, target: &str) -> RowResult<Held<Report>> {
    match read_target(alloc, target.as_bytes()) {
        Ok(target) => without_paths(alloc, target),
        Err(_) => Err(RowStop::Malformed),
    }
}

fn without_paths(alloc: Global, target: Target) -> RowResult<Held<Report>> {
    let report = Report {
        target,
        init: Init::Lazy,
        bounds: DEFAULTS,
        paths: 1000,
        budget: 2000,
        leaves: Row::new(alloc),
    };
    Ok(Held::new(alloc, report)?)
}

fn set(word: &str, report: &mut Report) -> RowResult<()> {
    let Some((name, number)) = word.split_once('=') else {
        return set_init(word, &mut report.init);
    };
    let number = read_number(number)?;
    match name.as_bytes() {
        b"paths" => report.paths = number,
        b"budget" => report.budget = number,
        _ => return set_bound(name, number, &mut report.bounds),
    }
    Ok(())
}

fn set_init(word: &str, init: &mut Init) -> RowResult<()> {
    match word.as_bytes() {
        b"lazy" => *init = Init::Lazy,
        b"lazier" => *init = Init::Lazier,
        _ => return Err(RowStop::Malformed),
    }
    Ok(())
}

fn set_bound(name: &str, number: u32, bounds: &mut Bounds) -> RowResult<()> {
    match name.as_bytes() {
        b"k" => bounds.k = number,
        b"array" => bounds.array = number,
        b"alloc" => bounds.run.alloc = number,
        b"loops" => bounds.run.loops = number,
        b"depth" => bounds.run.depth = number,
        b"steps" => bounds.run.steps = number,
        _ => return Err(RowStop::Malformed),
    }
    Ok(())
}

/// Begins a path, or adds a line to the last one.
pub fn add_to_report(alloc: Global, word: &str, rest: &str, report: &mut Report) -> RowResult<()> {
    match word.as_bytes() {
        b"path" => begin_path(alloc, rest, &mut report.leaves),
        _ => add_to_last(alloc, word, rest, &mut report.leaves),
    }
}

fn begin_path(alloc: Global, text: &str, paths: &mut Row<Path>) -> RowResult<()> {
    let decisions = read_decisions(alloc, text)?;
    Ok(paths.push(path_of(alloc, decisions))?)
}

/// The decisions with dots between them; `-` is none.
fn read_decisions(alloc: Global, text: &str) -> RowResult<Row<u32>> {
    let mut decisions = Row::new(alloc);
    if text == "-" {
        return Ok(decisions);
    }
    for word in text.split('.') {
        decisions.push(read_number(word)?)?;
    }
    Ok(decisions)
}

fn add_to_last(alloc: Global, word: &str, rest: &str, paths: &mut Row<Path>) -> RowResult<()> {
    let count = paths.as_slice().len();
    if count == 0 {
        return Err(RowStop::Malformed);
    }
    let path = paths.item_mut(count - 1);
    match word.as_bytes() {
        b"copy" => copy_picture(alloc, path),
        b"arg" | b"in" => add_carried(alloc, word, rest, path),
        _ => add_to_path(alloc, word, rest, path),
    }
}

/// Puts a copy of the picture in its place, so that a text shows that the copy equals its source.
fn copy_picture(alloc: Global, path: &mut Path) -> RowResult<()> {
    path.picture = kept(path.picture.copied(alloc))?;
    Ok(())
}
