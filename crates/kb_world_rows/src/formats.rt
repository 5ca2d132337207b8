//! The first rule of class files that a file breaks.

use crate::texts::{add, add_number};
use kb_classfile::{ClassFile, read_class};
use kb_format::{FormatFault, format_fault};
use kb_outside::Shelf;
use kb_table::{RowResult, RowStop, read_file};
use std::alloc::Global;

/// Writes what is wrong with a class file once bytes of it are changed, as in `105=9,113=6`; `-` changes none.
pub fn write_fault<S: Shelf>(
    alloc: Global,
    changes: &str,
    file: &str,
    shelf: &mut S,
    text: &mut Vec<u8>,
) -> RowResult<()> {
    let mut bytes = read_file(alloc, file, shelf)?;
    change_bytes(bytes.as_mut_slice(), changes)?;
    write_fault_of(alloc, bytes.as_slice(), text)
}

fn change_bytes(bytes: &mut [u8], changes: &str) -> RowResult<()> {
    if changes == "-" {
        return Ok(());
    }
    for change in changes.split(',') {
        change_byte(bytes, change)?;
    }
    Ok(())
}

fn change_byte(bytes: &mut [u8], change: &str) -> RowResult<()> {
    let Some((place, byte)) = change.split_once('=') else {
        return Err(RowStop::Malformed);
    };
    let (Ok(place), Ok(byte)) = (place.parse::<usize>(), byte.parse::<u8>()) else {
        return Err(RowStop::Malformed);
    };
    match bytes.get_mut(place) {
        Some(changed) => {
            *changed = byte;
            Ok(())
        }
        None => Err(RowStop::Malformed),
    }
}

fn write_fault_of(alloc: Global, bytes: &[u8], text: &mut Vec<u8>) -> RowResult<()> {
    match read_class(alloc, bytes) {
        Ok(file) => write_first_fault(alloc, &file, text),
        Err(_) => add("not read\n", text),
    }
}

fn write_first_fault(alloc: Global, file: &ClassFile, text: &mut Vec<u8>) -> RowResult<()> {
    match format_fault(alloc, file) {
        Ok(Some(fault)) => write_format_fault(alloc, fault, text),
        Ok(None) => add("no fault\n", text),
        Err(_) => Err(RowStop::NoMemory),
    }
}

fn write_format_fault(alloc: Global, fault: FormatFault, text: &mut Vec<u8>) -> RowResult<()> {
    let (what, entry) = match fault {
        FormatFault::BadName(entry) => ("bad name ", entry),
        FormatFault::BadDescriptor(entry) => ("bad descriptor ", entry),
        FormatFault::TwoMembers(entry) => ("two members ", entry),
    };
    add_number(alloc, what, i64::from(entry), "\n", text)
}
