//! Questions to class files.

use kb_classfile::{ClassFile, Code, Field, Handler, Method, PoolEntry, read_class};
use kb_table::{RowResult, RowStop, read_number};
use std::alloc::Global;

/// Appends the answer to a question about a class file, or why it is refused: its `class` as a whole, or the `entry`, the
/// `field` or the `method` of a number, or the bytes of the method's code, its `body`.
pub fn append_class_answer(
    alloc: Global,
    question: &str,
    bytes: &[u8],
    detail: &str,
    into: &mut String,
) -> RowResult<()> {
    match read_class(alloc, bytes) {
        Ok(file) => append_of_file(question, &file, detail, into),
        Err(refusal) => Ok(write!(into, "{refusal:?}")?),
    }
}

fn append_of_file(
    question: &str,
    file: &ClassFile,
    detail: &str,
    into: &mut String,
) -> RowResult<()> {
    match question {
        "class" => append_head(file, into),
        _ => append_item(question, file, read_number(detail)? as usize, into),
    }
}

fn append_item(question: &str, file: &ClassFile, place: usize, into: &mut String) -> RowResult<()> {
    match question {
        "entry" => append_entry(file, file.pool.as_slice().get(place), into),
        "field" => append_field(file.fields.as_slice().get(place), into),
        "method" => append_method(file.methods.as_slice().get(place), into),
        _ => append_body(file.methods.as_slice().get(place), into),
    }
}

/// Its version, its flags, the numbers of its class and its superclass, how many entries its pool has, the numbers of its
/// interfaces, and how many fields and methods there are.
fn append_head(file: &ClassFile, into: &mut String) -> RowResult<()> {
    let numbers = (file.major, file.access, file.this, file.parent);
    let entries = file.pool.as_slice().len();
    let interfaces = file.interfaces.as_slice();
    let (fields, methods) = (file.fields.as_slice().len(), file.methods.as_slice().len());
    Ok(write!(
        into,
        "{numbers:?} {entries} {interfaces:?} {fields} {methods}"
    )?)
}

/// An entry of its pool; of a text and of a class the bytes too.
fn append_entry(file: &ClassFile, entry: Option<&PoolEntry>, into: &mut String) -> RowResult<()> {
    match entry {
        Some(PoolEntry::Utf8(bytes)) => append_utf8(bytes.as_slice(), into),
        Some(PoolEntry::Class(name)) => append_class(file, *name, into),
        Some(entry) => Ok(write!(into, "{entry:?}")?),
        None => Ok(into.push_str("none")?),
    }
}

fn append_utf8(bytes: &[u8], into: &mut String) -> RowResult<()> {
    into.push_str("Utf8 ")?;
    append_bytes(Some(bytes), into)
}

fn append_class(file: &ClassFile, name: u16, into: &mut String) -> RowResult<()> {
    write!(into, "Class {name} ")?;
    append_bytes(file.utf8(name), into)
}

fn append_bytes(bytes: Option<&[u8]>, into: &mut String) -> RowResult<()> {
    match str::from_utf8(bytes.unwrap_or(b"?")) {
        Ok(told) => Ok(into.push_str(told)?),
        Err(_) => Err(RowStop::Malformed),
    }
}

fn append_field(field: Option<&Field>, into: &mut String) -> RowResult<()> {
    match field {
        Some(field) => append_numbers(field.access, field.name, field.kind, into),
        None => Err(RowStop::Malformed),
    }
}

/// Flags, and the numbers of a name and of a descriptor.
fn append_numbers(access: u16, name: u16, kind: u16, into: &mut String) -> RowResult<()> {
    let numbers = (access, name, kind);
    Ok(write!(into, "{numbers:?}")?)
}

/// Its flags and the numbers of its name and its descriptor, and of its code the limits, how many bytes there are, and the
/// handlers.
fn append_method(method: Option<&Method>, into: &mut String) -> RowResult<()> {
    let Some(method) = method else {
        return Err(RowStop::Malformed);
    };
    append_numbers(method.access, method.name, method.kind, into)?;
    match &method.code {
        Some(code) => append_code(code, into),
        None => Ok(into.push_str(" without code")?),
    }
}

fn append_code(code: &Code, into: &mut String) -> RowResult<()> {
    let counts = (code.max_stack, code.max_locals, code.bytes.as_slice().len());
    write!(into, " {counts:?}")?;
    for handler in code.handlers.as_slice() {
        append_handler(handler, into)?;
    }
    Ok(())
}

fn append_handler(row: &Handler, into: &mut String) -> RowResult<()> {
    let numbers = (row.start, row.end, row.target, row.catch);
    Ok(write!(into, " {numbers:?}")?)
}

/// The bytes of its code.
fn append_body(method: Option<&Method>, into: &mut String) -> RowResult<()> {
    match method.map(|method| method.code.as_ref()) {
        Some(Some(code)) => append_hexadecimal(code.bytes.as_slice(), into),
        _ => Ok(()),
    }
}

fn append_hexadecimal(bytes: &[u8], into: &mut String) -> RowResult<()> {
    for byte in bytes {
        write!(into, "{byte:02x}")?;
    }
    Ok(())
}
