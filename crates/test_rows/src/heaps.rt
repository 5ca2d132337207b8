//! The objects of a test by their numbers in the heap.

use kb_heap::{Ending, Object, Value};
use kb_names::{ExactType, Spelling, write_name, write_type};
use kb_table::{RowResult, append, append_number, kept};
use kb_test::{Objects, Test};
use std::alloc::Global;

/// More objects than a test here has.
const MOST: usize = 64;

/// Appends the arguments, the objects of the input, the object or value at the run's end, and the objects that are there then,
/// each on a line. `#` stands before an object's number in the heap.
pub fn append_numbers(alloc: Global, test: &Test, into: &mut Vec<u8>) -> RowResult<()> {
    append("args", into)?;
    append_values(alloc, test.input.args.as_slice(), into)?;
    append_objects(alloc, test.input.heap.objects.as_slice(), into)?;
    append_ending(alloc, &test.ending, into)?;
    append_left(alloc, test, into)
}

fn append_objects(alloc: Global, objects: &[Object], into: &mut Vec<u8>) -> RowResult<()> {
    for object in objects {
        append_object(alloc, object, into)?;
    }
    Ok(())
}

/// Appends the objects that are there at the run's end.
fn append_left(alloc: Global, test: &Test, into: &mut Vec<u8>) -> RowResult<()> {
    for number in 0..MOST {
        match test.heap.object(number) {
            Some(object) => append_object(alloc, object, into)?,
            None => return Ok(()),
        }
    }
    Ok(())
}

fn append_values(alloc: Global, values: &[Value], into: &mut Vec<u8>) -> RowResult<()> {
    for value in values {
        append_value(alloc, *value, into)?;
    }
    append("\n", into)
}

fn append_value(alloc: Global, value: Value, into: &mut Vec<u8>) -> RowResult<()> {
    match value {
        Value::Int(number) => append_number(alloc, " ", i64::from(number), into),
        Value::Null => append(" null", into),
        Value::Ref(object) => append_number(alloc, " #", i64::from(object), into),
    }
}

fn append_object(alloc: Global, object: &Object, into: &mut Vec<u8>) -> RowResult<()> {
    append_kind(&object.kind, into)?;
    append_values(alloc, object.values.as_slice(), into)
}

fn append_kind(kind: &ExactType, into: &mut Vec<u8>) -> RowResult<()> {
    match kind {
        ExactType::Class(name) => kept(write_name(name, into)),
        ExactType::Array(component) => {
            append("array of ", into)?;
            kept(write_type(component, Spelling::Escaped, into))
        }
    }
}

fn append_ending(alloc: Global, ending: &Ending, into: &mut Vec<u8>) -> RowResult<()> {
    match ending {
        Ending::Returned(Some(value)) => append_end(alloc, "returned", *value, into),
        Ending::Threw(object) => append_end(alloc, "threw", Value::Ref(*object), into),
        _ => append("ended\n", into),
    }
}

fn append_end(alloc: Global, how: &str, value: Value, into: &mut Vec<u8>) -> RowResult<()> {
    append(how, into)?;
    append_values(alloc, &[value], into)
}
