//! Tables over the constant pool: what its texts say, each read once in each role.

ghost use Rattle.std.specs.Prelude.{◌≡◌, ◌↔◌, ◌++◌, ℕ, List, None, IfOk, OnOk, IsTrue, IsSome, map, length, replicate, option_map, option_to_list, filter_map};
ghost use Rattle.std.specs.List.{AllByRecursion};
ghost use Rattle.kb_classfile.specs.Pool.{utf8_of, name_index_of};
ghost use Rattle.kb_class.specs.Loaded.{told_at};
ghost use Rattle.kb_class.specs.Tables.{type_numbers, field_name_index, method_name_index, name_numbers, kind_index_of, kind_numbers, field_index, method_index, literal_index_of, literal_numbers, IsSpelled, IsTable, Puts};

use crate::texts::{Spelled, text_of};
use kb_classfile::{ClassFile, Field, Method, PoolEntry};
use kb_names::{NoMemory, Row};
use std::alloc::Global;

/// The table of the texts with these numbers.
pub(crate) fn table_of<T: Spelled>(
    alloc: Global,
    file: &ClassFile,
    numbers: &[u16],
) -> Result<Row<Option<T>>, NoMemory>
    requires { AllByRecursion (IsSpelled T.spells file.now.pool) numbers.now }
    ensures { IfOk result (λ table. IsTable T.spells file.now.pool numbers.now table) }
{
    let mut table = empty_table(alloc, file.pool.as_slice().len())?;
    for number in numbers {
        put_text(alloc, file, *number, &mut table)?;
    }
    Ok(table)
}

fn empty_table<T: Spelled>(alloc: Global, size: usize) -> Result<Row<Option<T>>, NoMemory>
    ensures { IfOk result (λ table. table ≡ replicate size None) }
{
    let mut table = Row::new(alloc);
    for _ in 0..size {
        table.push(None)?;
    }
    Ok(table)
}

// Puts at the number what the text there says, unless it stands there.
fn put_text<T: Spelled>(
    alloc: Global,
    file: &ClassFile,
    number: u16,
    table: &mut Row<Option<T>>,
) -> Result<(), NoMemory>
    requires spelled { IsSpelled T.spells file.now.pool number }
    requires size { length table.old ≡ length file.now.pool }
    ensures { OnOk result (Puts T.spells file.now.pool number table.old table.new) }
{
    if is_told(table.as_slice(), number) {
        return Ok(());
    }
    let value = T::read(alloc, text_of(file, number))?;
    table.set(number as usize, Some(value));
    Ok(())
}

fn is_told<T>(table: &[Option<T>], number: u16) -> bool
    ensures { IsTrue result ↔ IsSome (told_at table.now number) }
{
    match table.get(number as usize) {
        Some(Some(_)) => true,
        _ => false,
    }
}

/// The numbers of the names of Class entries.
pub(crate) fn type_numbers(alloc: Global, pool: &[PoolEntry]) -> Result<Row<u16>, NoMemory>
    ensures { IfOk result (λ numbers. numbers ≡ type_numbers pool.now) }
{
    let mut numbers = Row::new(alloc);
    for entry in pool {
        add_name(&mut numbers, entry)?;
    }
    Ok(numbers)
}

fn add_name(numbers: &mut Row<u16>, entry: &PoolEntry) -> Result<(), NoMemory>
    ensures { OnOk result (numbers.new ≡ numbers.old ++ option_to_list (name_index_of entry.now)) }
{
    match entry {
        PoolEntry::Class(name) => Ok(numbers.push(*name)?),
        _ => Ok(()),
    }
}

/// The numbers of the names of fields and methods.
pub(crate) fn name_numbers(alloc: Global, file: &ClassFile) -> Result<Row<u16>, NoMemory>
    ensures { IfOk result (λ numbers. numbers ≡ name_numbers file.now) }
{
    let mut numbers = Row::new(alloc);
    add_field_names(&mut numbers, file.fields.as_slice())?;
    add_method_names(&mut numbers, file.methods.as_slice())?;
    Ok(numbers)
}

fn add_field_names(numbers: &mut Row<u16>, fields: &[Field]) -> Result<(), NoMemory>
    ensures { OnOk result (numbers.new ≡ numbers.old ++ map field_name_index fields.now) }
{
    for field in fields {
        numbers.push(field.name)?;
    }
    Ok(())
}

fn add_method_names(numbers: &mut Row<u16>, methods: &[Method]) -> Result<(), NoMemory>
    ensures { OnOk result (numbers.new ≡ numbers.old ++ map method_name_index methods.now) }
{
    for method in methods {
        numbers.push(method.name)?;
    }
    Ok(())
}

/// The numbers of the descriptors of NameAndType entries, fields and methods.
pub(crate) fn kind_numbers(alloc: Global, file: &ClassFile) -> Result<Row<u16>, NoMemory>
    ensures { IfOk result (λ numbers. numbers ≡ kind_numbers file.now) }
{
    let mut numbers = Row::new(alloc);
    add_entry_kinds(&mut numbers, file.pool.as_slice())?;
    add_field_kinds(&mut numbers, file.fields.as_slice())?;
    add_method_kinds(&mut numbers, file.methods.as_slice())?;
    Ok(numbers)
}

fn add_entry_kinds(numbers: &mut Row<u16>, pool: &[PoolEntry]) -> Result<(), NoMemory>
    ensures { OnOk result (numbers.new ≡ numbers.old ++ filter_map kind_index_of pool.now) }
{
    for entry in pool {
        add_kind(numbers, entry)?;
    }
    Ok(())
}

fn add_kind(numbers: &mut Row<u16>, entry: &PoolEntry) -> Result<(), NoMemory>
    ensures { OnOk result (numbers.new ≡ numbers.old ++ option_to_list (kind_index_of entry.now)) }
{
    match entry {
        PoolEntry::NameType(_, kind) => Ok(numbers.push(*kind)?),
        _ => Ok(()),
    }
}

fn add_field_kinds(numbers: &mut Row<u16>, fields: &[Field]) -> Result<(), NoMemory>
    ensures { OnOk result (numbers.new ≡ numbers.old ++ map field_index fields.now) }
{
    for field in fields {
        numbers.push(field.kind)?;
    }
    Ok(())
}

fn add_method_kinds(numbers: &mut Row<u16>, methods: &[Method]) -> Result<(), NoMemory>
    ensures { OnOk result (numbers.new ≡ numbers.old ++ map method_index methods.now) }
{
    for method in methods {
        numbers.push(method.kind)?;
    }
    Ok(())
}

/// The numbers of the texts of String entries.
pub(crate) fn literal_numbers(alloc: Global, file: &ClassFile) -> Result<Row<u16>, NoMemory>
    ensures { IfOk result (λ numbers. numbers ≡ literal_numbers file.now.pool) }
{
    let mut numbers = Row::new(alloc);
    for entry in file.pool.as_slice() {
        add_literal(&mut numbers, file, entry)?;
    }
    Ok(numbers)
}

fn add_literal(numbers: &mut Row<u16>, file: &ClassFile, entry: &PoolEntry) -> Result<(), NoMemory>
    ensures { OnOk result (numbers.new ≡ numbers.old ++ option_to_list (literal_index_of file.now.pool entry.now)) }
{
    match entry {
        PoolEntry::Str(text) => add_text(numbers, file, *text),
        _ => Ok(()),
    }
}

// Adds the number, if a text stands there.
fn add_text(numbers: &mut Row<u16>, file: &ClassFile, number: u16) -> Result<(), NoMemory>
    ensures { OnOk result (numbers.new ≡ numbers.old ++ option_to_list (option_map (λ (text : List ℕ). number) (utf8_of file.now number))) }
{
    match file.utf8(number) {
        Some(_) => Ok(numbers.push(number)?),
        None => Ok(()),
    }
}
