//! The input that a path carries, as lines of a text.

use crate::asked::{Asked, held_input};
use crate::texts::{add, add_exact};
use kb_heap::{Input, Object, Value};
use kb_input::input_of;
use kb_load::reached;
use kb_rows::Held;
use kb_table::{RowResult, RowStop, append_number, read_int};
use kb_world::World;
use std::alloc::Global;

/// Makes the input of the picture with these values of its variables the one that is asked of, and adds its lines.
pub fn emit(
    alloc: Global,
    world: &World,
    words: &str,
    asked: &mut Asked,
    text: &mut Vec<u8>,
) -> RowResult<()> {
    let values = values_of(alloc, words)?;
    asked.input = emitted(alloc, world, values.as_slice(), asked)?;
    add_input(alloc, asked.input.get(), text)
}

fn values_of(alloc: Global, words: &str) -> RowResult<Vec<i32>> {
    let mut values = Vec::new(alloc);
    for word in words.split(' ') {
        if !word.is_empty() {
            values.push(read_int(word)?)?;
        }
    }
    Ok(values)
}

/// The input for the parameters of the method that the table names.
fn emitted(alloc: Global, world: &World, values: &[i32], asked: &Asked) -> RowResult<Held<Input>> {
    let Some(target) = &asked.target else {
        return Err(RowStop::Malformed);
    };
    let Some(method) = reached(alloc, world, target.get()) else {
        return Err(RowStop::Malformed);
    };
    match input_of(alloc, world, method, &asked.path.get().picture, values) {
        Ok(input) => held_input(alloc, input),
        Err(_) => Err(RowStop::NoMemory),
    }
}

fn add_input(alloc: Global, input: &Input, text: &mut Vec<u8>) -> RowResult<()> {
    for value in input.args.as_slice() {
        add(b"arg", text)?;
        add_value(alloc, value, text)?;
        add(b"\n", text)?;
    }
    add_objects(alloc, input.heap.objects.as_slice(), text)
}

fn add_objects(alloc: Global, objects: &[Object], text: &mut Vec<u8>) -> RowResult<()> {
    let mut number: i64 = 0;
    for object in objects {
        append_number(alloc, "in i", number, text)?;
        add_object(alloc, object, text)?;
        number = number.saturating_add(1);
    }
    Ok(())
}

fn add_object(alloc: Global, object: &Object, text: &mut Vec<u8>) -> RowResult<()> {
    add(b" ", text)?;
    add_exact(&object.kind, text)?;
    add_values(alloc, object.values.as_slice(), text)?;
    add(b"\n", text)
}

fn add_values(alloc: Global, values: &[Value], text: &mut Vec<u8>) -> RowResult<()> {
    for value in values {
        add_value(alloc, value, text)?;
    }
    Ok(())
}

fn add_value(alloc: Global, value: &Value, text: &mut Vec<u8>) -> RowResult<()> {
    match value {
        Value::Int(number) => append_number(alloc, " ", i64::from(*number), text),
        Value::Null => add(b" null", text),
        Value::Ref(object) => append_number(alloc, " i", i64::from(*object), text),
    }
}
