//! The path of a state.

use crate::lines::States;
use crate::values::value_of;
use kb_asked::add;
use kb_frames::{SymState, SymValue};
use kb_heap::{Bounds, RunBounds};
use kb_names::Target;
use kb_path_lines::no_input;
use kb_picture::{Ended, Init, Leaf, Out, Path, SymEnding};
use kb_report_text::{Report, report_text};
use kb_rows::{Held, Row};
use kb_stated::{made, writes};
use kb_table::{RowResult, RowStop, kept};
use kb_world::World;
use std::alloc::Global;

/// The bounds that the reports name.
const BOUNDS: Bounds = Bounds {
    k: 3,
    array: 3,
    run: RunBounds {
        alloc: 16,
        loops: 10,
        depth: 16,
        steps: 2000,
    },
};

/// Makes the path of the state the one that is asked about, and adds the report that has it alone. With a word the run returns
/// that value there, and without one the path is open.
pub fn end(
    alloc: Global,
    world: &World,
    word: &str,
    states: &mut States,
    text: &mut Vec<u8>,
) -> RowResult<()> {
    let Some(state) = &states.state else {
        return Err(RowStop::Malformed);
    };
    let Some(target) = &states.asked.target else {
        return Err(RowStop::Malformed);
    };
    let path = path_of(alloc, state.get(), word)?;
    let report = report_of(alloc, target.get(), path)?;
    add(
        kept(report_text(alloc, world, report.get()))?.as_slice(),
        text,
    )?;
    states.asked.path = path_of(alloc, state.get(), word)?;
    Ok(())
}

/// The path of the state, whose run returns the value of the word, if there is one.
fn path_of(alloc: Global, state: &SymState, word: &str) -> RowResult<Held<Path>> {
    let path = open_path(state)?;
    let mut path = Held::new(alloc, path)?;
    if !word.is_empty() {
        path.get_mut().leaf = Leaf::Ended(ended(alloc, state, word)?);
    }
    Ok(path)
}

/// The path of a state that has met no conditions.
fn open_path(state: &SymState) -> RowResult<Path> {
    let [] = state.conditions() else {
        return Err(RowStop::Malformed);
    };
    match state.path(&[], Leaf::Open) {
        Ok(path) => Ok(path),
        Err(_) => Err(RowStop::NoMemory),
    }
}

/// What the state leaves where it returns the value of the word. There are no ints in it, so that the path has no terms.
fn ended(alloc: Global, state: &SymState, word: &str) -> RowResult<Ended> {
    let value = stated(state.resolved(value_of(state, word)?))?;
    let writes = kept(writes(alloc, state))?;
    let made = kept(made(alloc, state))?;
    Ok(Ended {
        ending: SymEnding::Returned(Some(value)),
        writes,
        made,
        input: no_input(alloc),
    })
}

fn stated(value: SymValue) -> RowResult<Out> {
    match value {
        SymValue::Null => Ok(Out::Null),
        SymValue::Loc(number) => Ok(Out::Loc(number)),
        SymValue::Obj(number) => Ok(Out::Obj(number)),
        SymValue::Literal(number) => Ok(Out::Literal(number)),
        SymValue::New(number) => Ok(Out::New(number)),
        SymValue::Int(_) => Err(RowStop::Malformed),
    }
}

fn report_of(alloc: Global, target: &Target, path: Held<Path>) -> RowResult<Held<Report>> {
    let mut leaves = Row::new(alloc);
    leaves.push(path.into_inner())?;
    let report = Report {
        target: kept(target.copied(alloc))?,
        init: Init::Lazier,
        bounds: BOUNDS,
        paths: 1,
        budget: 1,
        leaves,
    };
    Ok(Held::new(alloc, report)?)
}
