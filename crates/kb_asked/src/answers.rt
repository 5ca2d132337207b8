//! What the calls answer of a path and an input, as lines of a text.

ghost use Rattle.std.specs.Prelude.{◌≡◌, Some};
ghost use Rattle.kb_picture.specs.Places.{places_of};

use crate::asked::Asked;
use crate::texts::add;
use kb_fits::fits_types;
use kb_heap::{Ending, Heap, Input, RunBounds};
use kb_load::reached;
use kb_machine::run;
use kb_names::Target;
use kb_picture::{Leaf, Path, PlaceLists, ending_at, is_instance, places};
use kb_rows::Held;
use kb_table::{RowResult, RowStop, append_number, kept};
use kb_test::write_run;
use kb_world::World;
use std::alloc::Global;

/// Within them each method of the rows ends.
const BOUNDS: RunBounds = RunBounds {
    alloc: 16,
    loops: 10,
    depth: 16,
    steps: 2000,
};

/// The places of the picture, and what the path says of the input.
pub fn add_answer(
    alloc: Global,
    world: &World,
    asked: &Asked,
    text: &mut Vec<u8>,
) -> RowResult<()> {
    let (path, input) = (asked.path.get(), asked.input.get());
    match places(alloc, path, input) {
        Ok(Some(lists)) => add_judged(alloc, world, &asked.target, path, input, &lists, text),
        Ok(None) => add(b"no places\n", text),
        Err(_) => Err(RowStop::NoMemory),
    }
}

fn add_judged(
    alloc: Global,
    world: &World,
    target: &Option<Held<Target>>,
    path: &Path,
    input: &Input,
    lists: &PlaceLists,
    text: &mut Vec<u8>,
) -> RowResult<()>
    requires { places_of path.now.picture input.now ≡ Some lists.now }
{
    add_places(alloc, lists, text)?;
    match is_instance(alloc, world, path, input, lists) {
        Ok(true) => add_instance(alloc, world, target, path, input, lists, text),
        Ok(false) => add(b"no instance\n", text),
        Err(_) => Err(RowStop::NoMemory),
    }
}

/// As in `places o0=i0 l0=i0`.
fn add_places(alloc: Global, lists: &PlaceLists, text: &mut Vec<u8>) -> RowResult<()> {
    add(b"places", text)?;
    add_each(alloc, " o", lists.objects.as_slice(), text)?;
    add_each(alloc, " l", lists.locs.as_slice(), text)?;
    add(b"\n", text)
}

fn add_each(alloc: Global, letter: &str, places: &[u32], text: &mut Vec<u8>) -> RowResult<()> {
    let mut number: u32 = 0;
    for place in places {
        append_number(alloc, letter, i64::from(number), text)?;
        append_number(alloc, "=i", i64::from(*place), text)?;
        number = number.saturating_add(1);
    }
    Ok(())
}

/// An instance; where the path is an ended one, how its run ends.
fn add_instance(
    alloc: Global,
    world: &World,
    target: &Option<Held<Target>>,
    path: &Path,
    input: &Input,
    lists: &PlaceLists,
    text: &mut Vec<u8>,
) -> RowResult<()>
    requires { places_of path.now.picture input.now ≡ Some lists.now }
{
    add(b"instance\n", text)?;
    let Leaf::Ended(_) = &path.leaf else {
        return Ok(());
    };
    match ending_at(alloc, world, path, input, lists) {
        Ok(stated) => add_stated(alloc, world, target, input, &stated, text),
        Err(_) => Err(RowStop::NoMemory),
    }
}

/// How the run ends by the path, and whether the machine's run does, where the table names a method.
fn add_stated(
    alloc: Global,
    world: &World,
    target: &Option<Held<Target>>,
    input: &Input,
    stated: &(Ending, Heap),
    text: &mut Vec<u8>,
) -> RowResult<()> {
    add_end(alloc, world, input, stated, text)?;
    match target {
        Some(target) => add_compared(alloc, world, target.get(), input, stated, text),
        None => Ok(()),
    }
}

/// The lines of a test that say how a run of the input ends.
fn add_end(
    alloc: Global,
    world: &World,
    input: &Input,
    end: &(Ending, Heap),
    text: &mut Vec<u8>,
) -> RowResult<()> {
    let Ok(inputs) = u32::try_from(input.heap.objects.as_slice().len()) else {
        return Err(RowStop::NoMemory);
    };
    kept(write_run(alloc, &end.0, &end.1, inputs, world.literals(), text))
}

fn add_compared(
    alloc: Global,
    world: &World,
    target: &Target,
    input: &Input,
    stated: &(Ending, Heap),
    text: &mut Vec<u8>,
) -> RowResult<()> {
    let Some(method) = reached(alloc, world, target) else {
        return Err(RowStop::Malformed);
    };
    if !fits_types(world, method, input) {
        return add(b"not type-correct\n", text);
    }
    match run(alloc, world, method, input, &BOUNDS) {
        Ok(end) => add_verdict(alloc, world, input, (&end, stated), text),
        Err(_) => Err(RowStop::NoMemory),
    }
}

/// Whether the run ends as stated, and how it ends where it does not.
fn add_verdict(
    alloc: Global,
    world: &World,
    input: &Input,
    both: (&(Ending, Heap), &(Ending, Heap)),
    text: &mut Vec<u8>,
) -> RowResult<()> {
    let (end, stated) = both;
    if are_same(end, stated) {
        return add(b"as the run\n", text);
    }
    add(b"but the run\n", text)?;
    add_end(alloc, world, input, end, text)
}

fn are_same(one: &(Ending, Heap), other: &(Ending, Heap)) -> bool {
    if !one.0.is_same(&other.0) {
        return false;
    }
    one.1.is_same(&other.1)
}
