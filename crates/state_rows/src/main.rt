//! States of unknown heaps under lazier initialisation, on a table of rows: each row is a call that makes a state, reads a slot of
//! it for the first time, binds a location or writes. The program writes the path of a state as a report; of the path it writes,
//! as picture_rows does, the input that it carries, whether that is an instance, how its run ends by the path, and whether the
//! machine's run ends so.
//!
//! The gate runs it over the files of `data/` and compares what it writes with `stdout`, so that a row costs no proof. What is
//! expected there was written by hand; the table says how.
#![tactic(auto)]

mod ends;
mod lines;
mod values;

use kb_load::{InWorlds, WorldRows};
use kb_outside::{FileShelf, OutSink, Sink};
use kb_table::{RowResult, send, write_rows};
use kb_world::World;
use lines::{States, add_row, no_states};
use std::alloc::Global;
use std::io;
use std::process::ExitCode;

/// Rows make states, and ask about the paths of these.
#[derive(Drop)]
struct StateRows {
    states: States,
}

impl WorldRows for StateRows {
    fn write_in_world<W: Sink>(
        &mut self,
        alloc: Global,
        world: &World,
        row: &str,
        out: &mut W,
    ) -> RowResult<()> {
        let mut text = Vec::new(alloc);
        add_row(alloc, world, row, &mut self.states, &mut text)?;
        send(out, text.as_slice())
    }
}

/// Writes what all rows come to.
fn main(rt: HostRuntime) -> io::Result<ExitCode> {
    let mut shelf = FileShelf::new(&rt);
    let mut out = OutSink::new(io::writer(&rt));
    let mut rows = InWorlds {
        rows: StateRows {
            states: no_states(rt.alloc())?,
        },
        world: None,
    };
    write_rows(rt.alloc(), "rows", &mut rows, &mut shelf, &mut out)?;
    Ok(ExitCode::from(0))
}
