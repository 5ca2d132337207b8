//! The texts of reports, and the diagrams of their paths: rows of the file `rows` make reports, a line each, and have both written,
//! so that each form of a line stands in one of them.
//!
//! The gate runs it over the files of `data/` and compares what it writes with `stdout`, so that a row costs no proof. What is
//! expected there is no output of this program: it was written by hand, after what each line is to say. The class files are made
//! by `examples/reports/make.py`.
#![tactic(auto)]

mod reports;

use kb_diagram::diagram_text;
use kb_load::{InWorlds, WorldRows};
use kb_outside::{FileShelf, OutSink, Sink};
use kb_path_lines::split;
use kb_report_text::{Report, report_text};
use kb_rows::Held;
use kb_table::{RowResult, RowStop, kept, send, write_rows};
use kb_world::World;
use reports::{add_to_report, read_report};
use std::alloc::Global;
use std::io;
use std::process::ExitCode;

/// The report that rows make.
#[derive(Drop)]
struct ReportRows {
    report: Option<Held<Report>>,
}

impl WorldRows for ReportRows {
    fn write_in_world<W: Sink>(
        &mut self,
        alloc: Global,
        world: &World,
        row: &str,
        out: &mut W,
    ) -> RowResult<()> {
        let (word, rest) = split(row);
        match word.as_bytes() {
            b"report" => begin(alloc, rest, &mut self.report),
            b"text" => write_text(alloc, world, &self.report, out),
            b"diagrams" => write_diagrams(alloc, world, &self.report, out),
            _ => add_row(alloc, word, rest, &mut self.report),
        }
    }
}

/// Writes the texts.
fn main(rt: HostRuntime) -> io::Result<ExitCode> {
    let mut shelf = FileShelf::new(&rt);
    let mut out = OutSink::new(io::writer(&rt));
    let mut rows = InWorlds {
        rows: ReportRows { report: None },
        world: None,
    };
    write_rows(rt.alloc(), "rows", &mut rows, &mut shelf, &mut out)?;
    Ok(ExitCode::from(0))
}

fn begin(alloc: Global, words: &str, report: &mut Option<Held<Report>>) -> RowResult<()> {
    *report = Some(read_report(alloc, words)?);
    Ok(())
}

fn add_row(
    alloc: Global,
    word: &str,
    rest: &str,
    report: &mut Option<Held<Report>>,
) -> RowResult<()> {
    match report {
        Some(report) => add_to_report(alloc, word, rest, report.get_mut()),
        None => Err(RowStop::Malformed),
    }
}

fn write_text<W: Sink>(
    alloc: Global,
    world: &World,
    report: &Option<Held<Report>>,
    out: &mut W,
) -> RowResult<()> {
    let Some(report) = report else {
        return Err(RowStop::Malformed);
    };
    let text = kept(report_text(alloc, world, report.get()))?;
    send(out, text.as_slice())
}

fn write_diagrams<W: Sink>(
    alloc: Global,
    world: &World,
    report: &Option<Held<Report>>,
    out: &mut W,
) -> RowResult<()> {
    let Some(report) = report else {
        return Err(RowStop::Malformed);
    };
    for path in report.get().leaves.as_slice() {
        let text = kept(diagram_text(alloc, world, path))?;
        send(out, text.as_slice())?;
    }
    Ok(())
}
