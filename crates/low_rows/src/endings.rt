//! Endings of runs, and bounds.

use crate::steps::read_value;
use crate::told::append_bool;
use crate::words::read_list;
use kb_heap::{Bound, Bounds, Ending, Place, RunBounds};
use kb_names::read_target;
use kb_table::{RowResult, RowStop, read_number, read_words};
use std::alloc::Global;

/// Appends whether a copy of an ending is the same as another.
pub fn append_ending(alloc: Global, asked: &[String], into: &mut Vec<u8>) -> RowResult<()> {
    let [first, second] = asked else {
        return Err(RowStop::Malformed);
    };
    let ending = read_ending(alloc, first.as_str())?;
    append_beside(alloc, &ending, second.as_str(), into)
}

fn append_beside(alloc: Global, ending: &Ending, other: &str, into: &mut Vec<u8>) -> RowResult<()> {
    let other = read_ending(alloc, other)?;
    append_same(alloc, ending, &other, into)
}

fn append_same(
    alloc: Global,
    ending: &Ending,
    other: &Ending,
    into: &mut Vec<u8>,
) -> RowResult<()> {
    let copy = ending.copied(alloc)?;
    append_bool(copy.is_same(other), into)
}

fn read_ending(alloc: Global, spelled: &str) -> RowResult<Ending> {
    let words = read_words(alloc, spelled, ':')?;
    match words.as_slice() {
        [way] if way.as_str() == "returned" => Ok(Ending::Returned(None)),
        [way, of] => ending_of(way.as_str(), of.as_str()),
        [_, method, at] => read_place(alloc, method.as_str(), at.as_str()),
        _ => Err(RowStop::Malformed),
    }
}

fn ending_of(way: &str, of: &str) -> RowResult<Ending> {
    match way {
        "returned" => Ok(Ending::Returned(Some(read_value(of)?))),
        "threw" => Ok(Ending::Threw(read_number(of)?)),
        "past" => Ok(Ending::Past(read_bound(of)?)),
        _ => Err(RowStop::Malformed),
    }
}

fn read_place(alloc: Global, method: &str, at: &str) -> RowResult<Ending> {
    let Ok(method) = read_target(alloc, method.as_bytes()) else {
        return Err(RowStop::Malformed);
    };
    let at = read_number(at)?;
    Ok(Ending::IllTyped(Place { method, at }))
}

fn read_bound(word: &str) -> RowResult<Bound> {
    match word {
        "k" => Ok(Bound::K),
        "array" => Ok(Bound::Array),
        "alloc" => Ok(Bound::Alloc),
        "loops" => Ok(Bound::Loops),
        "depth" => Ok(Bound::Depth),
        "steps" => Ok(Bound::Steps),
        _ => Err(RowStop::Malformed),
    }
}

/// Appends whether two bounds are the same, and whether those of their runs are.
pub fn append_bounds(alloc: Global, asked: &[String], into: &mut Vec<u8>) -> RowResult<()> {
    let [first, second] = asked else {
        return Err(RowStop::Malformed);
    };
    let first = read_bounds(alloc, first.as_str())?;
    let second = read_bounds(alloc, second.as_str())?;
    append_bool(first == second, into)?;
    append_bool(first.run == second.run, into)
}

/// The bounds of an exploration in the order in which they stand there.
fn read_bounds(alloc: Global, spelled: &str) -> RowResult<Bounds> {
    let numbers = read_list(alloc, spelled)?;
    match numbers.as_slice() {
        [k, array, alloc, loops, depth, steps] => Ok(Bounds {
            k: *k,
            array: *array,
            run: RunBounds {
                alloc: *alloc,
                loops: *loops,
                depth: *depth,
                steps: *steps,
            },
        }),
        _ => Err(RowStop::Malformed),
    }
}
