//! Values and objects of heaps, as words.

use crate::told::append_word;
use kb_heap::{Object, Row, Value};
use kb_names::{ExactType, read_name, read_type};
use kb_table::{RowResult, RowStop, read_int, read_number};
use std::alloc::Global;

/// The value that a word spells: an int, `null`, or the number of an object behind `@`.
pub fn read_value(word: &str) -> RowResult<Value> {
    if word == "null" {
        return Ok(Value::Null);
    }
    match word.strip_prefix("@") {
        Some(object) => Ok(Value::Ref(read_number(object)?)),
        None => Ok(Value::Int(read_int(word)?)),
    }
}

/// The values between commas.
pub fn read_values(alloc: Global, spelled: &str) -> RowResult<Row<Value>> {
    let mut values = Row::new(alloc);
    for word in spelled.split(',') {
        values.push(read_value(word)?)?;
    }
    Ok(values)
}

/// The object of that class, or of an array's descriptor, with these values.
pub fn read_object(alloc: Global, kind: &str, values: &str) -> RowResult<Object> {
    let values = read_values(alloc, values)?;
    let kind = read_kind(alloc, kind)?;
    Ok(Object { kind, values })
}

fn read_kind(alloc: Global, kind: &str) -> RowResult<ExactType> {
    match kind.strip_prefix("[") {
        Some(component) => match read_type(alloc, component.as_bytes()) {
            Ok(component) => Ok(ExactType::Array(component)),
            Err(_) => Err(RowStop::Malformed),
        },
        None => match read_name(alloc, kind.as_bytes()) {
            Ok(name) => Ok(ExactType::Class(name)),
            Err(_) => Err(RowStop::Malformed),
        },
    }
}

/// Appends a value as a word spells it, or `none`.
pub fn append_value(alloc: Global, value: Option<Value>, into: &mut Vec<u8>) -> RowResult<()> {
    match value {
        Some(Value::Int(number)) => append_word(format!(in alloc; "{number}")?.as_str(), into),
        Some(Value::Null) => append_word("null", into),
        Some(Value::Ref(object)) => append_word(format!(in alloc; "@{object}")?.as_str(), into),
        None => append_word("none", into),
    }
}
