//! The lines of an input.

use crate::texts::{push, split};
use crate::words::{read_exact, read_value};
use kb_heap::{Heap, Input, Object, Value};
use kb_rows::Row;
use kb_table::RowResult;
use std::alloc::Global;

/// The input without arguments and objects.
pub fn no_input(alloc: Global) -> Input {
    Input {
        heap: Heap::new(alloc),
        args: Row::new(alloc),
    }
}

/// An argument, as in `arg i0`, or an object, as in `in i0 Node 0 null`.
pub fn add_to_input(alloc: Global, word: &str, rest: &str, input: &mut Input) -> RowResult<()> {
    if word == "arg" {
        return push(read_value(rest), &mut input.args);
    }
    let (_, object) = split(rest);
    push(read_object(alloc, object), &mut input.heap.objects)
}

fn read_object(alloc: Global, text: &str) -> RowResult<Object> {
    let (kind, values) = split(text);
    let values = read_values(alloc, values)?;
    let kind = read_exact(alloc, kind)?;
    Ok(Object { kind, values })
}

fn read_values(alloc: Global, text: &str) -> RowResult<Row<Value>> {
    let mut values = Row::new(alloc);
    add_values(text, &mut values)?;
    Ok(values)
}

fn add_values(text: &str, values: &mut Row<Value>) -> RowResult<()> {
    if text.is_empty() {
        return Ok(());
    }
    for word in text.split(' ') {
        push(read_value(word), values)?;
    }
    Ok(())
}
