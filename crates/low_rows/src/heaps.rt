//! Heaps and inputs.

use crate::steps::{append_value, read_object, read_value, read_values};
use crate::told::{append_bool, append_number, append_word};
use kb_heap::{Heap, Input, Object, Value};
use kb_table::{RowResult, RowStop, read_number, read_words};
use std::alloc::Global;

/// Appends what each step gives that is done to a heap, from the heap without objects on.
pub fn append_heap(alloc: Global, steps: &[String], into: &mut Vec<u8>) -> RowResult<()> {
    let mut heap = Heap::new(alloc);
    for step in steps {
        append_step(alloc, step.as_str(), &mut heap, into)?;
    }
    Ok(())
}

fn append_step(alloc: Global, step: &str, heap: &mut Heap, into: &mut Vec<u8>) -> RowResult<()> {
    match step.strip_prefix("add:") {
        Some(spelled) => {
            let number = add_object(alloc, spelled, heap)?;
            append_number(alloc, Some(number), into)
        }
        None => append_at(alloc, step, heap, into),
    }
}

/// Adds the object of a word, and gives its number.
fn add_object(alloc: Global, spelled: &str, heap: &mut Heap) -> RowResult<u32> {
    match heap.add(read_spelled(alloc, spelled)?) {
        Ok(number) => Ok(number),
        Err(_) => Err(RowStop::Malformed),
    }
}

/// Gets the value at a place, or puts one there.
fn append_at(alloc: Global, step: &str, heap: &mut Heap, into: &mut Vec<u8>) -> RowResult<()> {
    let words = read_words(alloc, step, ':')?;
    match words.as_slice() {
        [object, slot] => {
            let object = read_number(object.as_str())?;
            let value = get(heap, object, read_number(slot.as_str())?);
            append_value(alloc, value, into)
        }
        [object, slot, value] => {
            let object = read_number(object.as_str())?;
            let slot = read_number(slot.as_str())?;
            let value = read_value(value.as_str())?;
            append_put(heap, object, slot, value, into)
        }
        _ => Err(RowStop::Malformed),
    }
}

/// The object of a word: its class and its values, with a colon between them.
fn read_spelled(alloc: Global, spelled: &str) -> RowResult<Object> {
    match spelled.split_once(':') {
        Some((kind, values)) => read_object(alloc, kind, values),
        None => Err(RowStop::Malformed),
    }
}

fn get(heap: &Heap, object: u32, slot: u32) -> Option<Value> {
    heap.find(object, slot)?;
    Some(heap.get(object, slot))
}

/// Puts the value there and appends `put`; `none` where there is no such place.
fn append_put(
    heap: &mut Heap,
    object: u32,
    slot: u32,
    value: Value,
    into: &mut Vec<u8>,
) -> RowResult<()> {
    if heap.find(object, slot).is_some() {
        heap.put(object, slot, value);
        return append_word("put", into);
    }
    append_word("none", into)
}

/// Appends whether an input and its heap are the same as those of a copy, which may be changed at a place.
pub fn append_input(alloc: Global, asked: &[String], into: &mut Vec<u8>) -> RowResult<()> {
    let [object, args, changes @ ..] = asked else {
        return Err(RowStop::Malformed);
    };
    let input = read_input(alloc, object.as_str(), args.as_str())?;
    append_beside_copy(alloc, &input, changes, into)
}

fn read_input(alloc: Global, object: &str, args: &str) -> RowResult<Input> {
    let args = read_values(alloc, args)?;
    let mut heap = Heap::new(alloc);
    add_object(alloc, object, &mut heap)?;
    Ok(Input { heap, args })
}

fn append_beside_copy(
    alloc: Global,
    input: &Input,
    changes: &[String],
    into: &mut Vec<u8>,
) -> RowResult<()> {
    let mut copy = input.copied(alloc)?;
    change(alloc, changes, &mut copy.heap)?;
    append_both(input, &copy, into)
}

fn change(alloc: Global, changes: &[String], heap: &mut Heap) -> RowResult<()> {
    let mut told = Vec::new(alloc);
    for step in changes {
        append_step(alloc, step.as_str(), heap, &mut told)?;
    }
    Ok(())
}

fn append_both(input: &Input, copy: &Input, into: &mut Vec<u8>) -> RowResult<()> {
    append_bool(input.is_same(copy), into)?;
    append_bool(input.heap.is_same(&copy.heap), into)
}

/// Appends whether two objects are the same.
pub fn append_objects(alloc: Global, asked: &[String], into: &mut Vec<u8>) -> RowResult<()> {
    let [first, second] = asked else {
        return Err(RowStop::Malformed);
    };
    let first = read_spelled(alloc, first.as_str())?;
    let second = read_spelled(alloc, second.as_str())?;
    append_bool(first.is_same(&second), into)
}
