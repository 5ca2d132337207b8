//! How runs end, as texts.

use kb_heap::{Bound, Ending, Heap, Place, Value};
use kb_names::{ExactType, Spelling, write_name, write_target, write_type};
use kb_table::{RowResult, RowStop, append, append_number, kept};
use std::alloc::Global;

/// Appends an ending. An object of the heap is told by its class.
pub fn append_ending(
    alloc: Global,
    ending: &Ending,
    heap: &Heap,
    into: &mut Vec<u8>,
) -> RowResult<()> {
    match ending {
        Ending::Returned(None) => append("returns", into),
        Ending::Returned(Some(value)) => append_value(alloc, value, heap, into),
        Ending::Threw(object) => {
            append("throws ", into)?;
            append_class(*object, heap, into)
        }
        Ending::IllTyped(place) => append_place(alloc, place, into),
        Ending::Past(bound) => {
            append("past ", into)?;
            append(bound_text(*bound), into)
        }
    }
}

fn append_place(alloc: Global, place: &Place, into: &mut Vec<u8>) -> RowResult<()> {
    append("illtyped ", into)?;
    kept(write_target(&place.method, into))?;
    append_number(alloc, " ", i64::from(place.at), into)
}

fn append_value(alloc: Global, value: &Value, heap: &Heap, into: &mut Vec<u8>) -> RowResult<()> {
    append("returns ", into)?;
    match value {
        Value::Int(number) => append_number(alloc, "", i64::from(*number), into),
        Value::Null => append("null", into),
        Value::Ref(object) => append_class(*object, heap, into),
    }
}

/// Appends the name of the class of that object, or the descriptor of an array.
fn append_class(object: u32, heap: &Heap, into: &mut Vec<u8>) -> RowResult<()> {
    let Some(object) = heap.objects.as_slice().get(object as usize) else {
        return Err(RowStop::Malformed);
    };
    match &object.kind {
        ExactType::Class(name) => kept(write_name(name, into)),
        ExactType::Array(component) => {
            append("[", into)?;
            kept(write_type(component, Spelling::Escaped, into))
        }
    }
}

fn bound_text(bound: Bound) -> &'static str {
    match bound {
        Bound::K => "k",
        Bound::Array => "array",
        Bound::Alloc => "alloc",
        Bound::Loops => "loops",
        Bound::Depth => "depth",
        Bound::Steps => "steps",
    }
}
