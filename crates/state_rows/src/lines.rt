//! The rows: calls on states, and questions about paths.

use crate::ends::end;
use crate::values::{Place, read_choice, read_place, value_of};
use kb_asked::{Asked, add_itself, add_line, nothing_asked};
use kb_frames::{SymState, SymValue, start};
use kb_load::reached;
use kb_path_lines::{numbered, read_location, read_slot, split};
use kb_picture::Init;
use kb_rows::Held;
use kb_table::{RowResult, RowStop, kept};
use kb_world::World;
use std::alloc::Global;
use std::mem;

/// A state, another one that was put aside, and what is asked about.
#[derive(Drop)]
pub struct States {
    pub asked: Asked,
    pub state: Option<Held<SymState>>,
    aside: Option<Held<SymState>>,
}

/// There is no state yet.
pub fn no_states(alloc: Global) -> RowResult<States> {
    Ok(States {
        asked: nothing_asked(alloc)?,
        state: None,
        aside: None,
    })
}

/// Adds what a row comes to. A row `state` begins a state of the method that was named last, `copy` puts a copy of it aside, and
/// `swap` goes on with the one that was put aside; `end` makes the path of the state the one that is asked about. Every other row
/// is a call on the state, or a line about a path or an input.
pub fn add_row(
    alloc: Global,
    world: &World,
    row: &str,
    states: &mut States,
    text: &mut Vec<u8>,
) -> RowResult<()> {
    let (word, rest) = split(row);
    match word.as_bytes() {
        b"state" => {
            states.state = Some(first_state(alloc, world, &states.asked)?);
            add_itself(row, text)
        }
        b"copy" => put_aside(alloc, states),
        b"swap" => {
            mem::swap(&mut states.state, &mut states.aside);
            add_itself(row, text)
        }
        b"end" => end(alloc, world, rest, states, text),
        b"first" | b"begin" | b"access" | b"store" | b"make" | b"write" => {
            call(alloc, world, word, rest, &mut states.state)
        }
        _ => add_line(alloc, world, row, &mut states.asked, text),
    }
}

/// The state before the arguments of the method are read.
fn first_state(alloc: Global, world: &World, asked: &Asked) -> RowResult<Held<SymState>> {
    let Some(target) = &asked.target else {
        return Err(RowStop::Malformed);
    };
    let Some(method) = reached(alloc, world, target.get()) else {
        return Err(RowStop::Malformed);
    };
    match start(alloc, world, method, Init::Lazier) {
        Ok(state) => held(alloc, state),
        Err(_) => Err(RowStop::NoMemory),
    }
}

fn held(alloc: Global, state: SymState) -> RowResult<Held<SymState>> {
    Ok(Held::new(alloc, state)?)
}

fn put_aside(alloc: Global, states: &mut States) -> RowResult<()> {
    let Some(state) = &states.state else {
        return Err(RowStop::Malformed);
    };
    let copy = kept(state.get().copy())?;
    states.aside = Some(held(alloc, copy)?);
    Ok(())
}

fn call(
    alloc: Global,
    world: &World,
    word: &str,
    rest: &str,
    state: &mut Option<Held<SymState>>,
) -> RowResult<()> {
    match state {
        Some(state) => call_on(alloc, world, word, rest, state.get_mut()),
        None => Err(RowStop::Malformed),
    }
}

fn call_on(
    alloc: Global,
    world: &World,
    word: &str,
    rest: &str,
    state: &mut SymState,
) -> RowResult<()> {
    match word.as_bytes() {
        b"first" => read_first(alloc, world, rest, state),
        b"begin" => kept(state.begin(world)),
        b"access" => access(alloc, world, rest, state),
        b"store" => store(rest, state),
        b"make" => make(world, rest, state),
        _ => write(rest, state),
    }
}

/// As in `a0 location`: a slot of the picture, and what is found there.
fn read_first(alloc: Global, world: &World, rest: &str, state: &mut SymState) -> RowResult<()> {
    let (slot, words) = split(rest);
    let slot = read_slot(slot)?;
    let choice = read_choice(alloc, words)?;
    kept(state.first_reference(world, slot, &choice))
}

/// As in `l0 new Names`: a location, and the object that it is.
fn access(alloc: Global, world: &World, rest: &str, state: &mut SymState) -> RowResult<()> {
    let (word, words) = split(rest);
    let Some(number) = read_location(word) else {
        return Err(RowStop::Malformed);
    };
    let choice = read_choice(alloc, words)?;
    kept(state.bind(world, number, &choice))
}

/// As in `x1 x0`: a local, and the value that is stored there.
fn store(rest: &str, state: &mut SymState) -> RowResult<()> {
    let (local, word) = split(rest);
    let value = value_of(state, word)?;
    match numbered(local, "x") {
        Some(number) => store_at(number, value, state),
        None => Err(RowStop::Malformed),
    }
}

fn store_at(number: u32, value: SymValue, state: &mut SymState) -> RowResult<()> {
    let Ok(number) = u16::try_from(number) else {
        return Err(RowStop::Malformed);
    };
    state.store(number, value);
    Ok(())
}

/// The name of a class, of which the run makes an object.
fn make(world: &World, class: &str, state: &mut SymState) -> RowResult<()> {
    match state.make_object(world, class.as_bytes()) {
        Ok(_) => Ok(()),
        Err(_) => Err(RowStop::NoMemory),
    }
}

/// As in `x1.0 x0`: a slot of an object, and the value that is written there.
fn write(rest: &str, state: &mut SymState) -> RowResult<()> {
    let (slot, word) = split(rest);
    let value = value_of(state, word)?;
    match read_place(state, slot)? {
        Place::Pictured(object, slot) => state.write(object, slot, value),
        Place::Made(object, slot) => state.write_made(object, slot, value),
    }
    Ok(())
}
