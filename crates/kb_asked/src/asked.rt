//! The lines of a table, one after the other.

use crate::answers::add_answer;
use crate::emitting::emit;
use crate::texts::add_itself;
use kb_heap::Input;
use kb_names::{Target, read_target};
use kb_path_lines::{add_to_input, add_to_path, no_input, path_of, split};
use kb_picture::Path;
use kb_rows::{Held, Row};
use kb_table::RowResult;
use kb_world::World;
use std::alloc::Global;

/// A path and an input, and the method whose runs the path speaks of, where it speaks of some.
#[derive(Drop)]
pub struct Asked {
    pub target: Option<Held<Target>>,
    pub path: Held<Path>,
    pub input: Held<Input>,
}

/// Nothing is asked of yet.
pub fn nothing_asked(alloc: Global) -> RowResult<Asked> {
    let path = empty_path(alloc)?;
    let input = held_input(alloc, no_input(alloc))?;
    Ok(Asked {
        target: None,
        path,
        input,
    })
}

fn empty_path(alloc: Global) -> RowResult<Held<Path>> {
    Ok(Held::new(alloc, path_of(alloc, Row::new(alloc)))?)
}

pub fn held_input(alloc: Global, input: Input) -> RowResult<Held<Input>> {
    Ok(Held::new(alloc, input)?)
}

/// Adds what a line comes to. A line `ask` asks of the path and the input before it, and `emit` makes the input that the path
/// carries; the lines with the names of paths and inputs are written as they are.
pub fn add_line(
    alloc: Global,
    world: &World,
    line: &str,
    asked: &mut Asked,
    text: &mut Vec<u8>,
) -> RowResult<()> {
    let (word, rest) = split(line);
    match word.as_bytes() {
        b"ask" => add_answer(alloc, world, asked, text),
        b"emit" => {
            add_itself(line, text)?;
            emit(alloc, world, rest, asked, text)
        }
        b"path" | b"input" => {
            add_itself(line, text)?;
            take(alloc, word, rest, asked)
        }
        _ => take(alloc, word, rest, asked),
    }
}

/// Takes a line of a path or an input; the first line of either begins it anew.
fn take(alloc: Global, word: &str, rest: &str, asked: &mut Asked) -> RowResult<()> {
    match word.as_bytes() {
        b"method" => asked.target = read_method(alloc, rest)?,
        b"path" => asked.path = empty_path(alloc)?,
        b"input" => asked.input = held_input(alloc, no_input(alloc))?,
        b"arg" | b"in" => return add_to_input(alloc, word, rest, asked.input.get_mut()),
        _ => return add_to_path(alloc, word, rest, asked.path.get_mut()),
    }
    Ok(())
}

/// The method of a target, or none.
fn read_method(alloc: Global, text: &str) -> RowResult<Option<Held<Target>>> {
    match read_target(alloc, text.as_bytes()) {
        Ok(target) => Ok(Some(Held::new(alloc, target)?)),
        Err(_) => Ok(None),
    }
}
