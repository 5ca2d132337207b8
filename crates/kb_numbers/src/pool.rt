//! The numbers of the members of a class with a file: by a row of the numbers of the texts in its constant pool.
ghost use Rattle.std.specs.Prelude.{◌≡◌, Some, map, slice_get, slice_index_or, IfOk, OnOk};
ghost use Rattle.std.specs.Option.{option_copied};
ghost use Rattle.kb_classfile.specs.Pool.{text_of};
ghost use Rattle.kb_class.specs.Class.{Class as PlainClass};
ghost use Rattle.kb_texts.specs.Texts.{Keeps, with_text};
ghost use Rattle.kb_numbers.specs.Numbers.{IsNumbered, IsOfFile};
ghost use Rattle.kb_numbers.specs.Pools.{HasNumber, IsTextRow, class_index, entry_numbers, field_pair, method_pair, name_type_at, numbers_by, pair_at};

use crate::class_numbers::ClassNumbers;
use crate::pairs::{EntryNumbers, Pair};
use kb_classfile::{ClassFile, Field, Method, PoolEntry};
use kb_names::NoMemory;
use kb_texts::Texts;
use std::alloc::Global;

/// The numbers of the members of the class of that file, whose first method has that number.
pub(crate) fn given_numbers(
    alloc: Global,
    file: &ClassFile,
    first: u32,
    texts: &mut Texts,
) -> Result<ClassNumbers, NoMemory>
    ensures keeps { OnOk result (Keeps texts.old texts.new) }
    ensures numbers { IfOk result (λ own. (class : PlainClass) → IsOfFile class file.now → IsNumbered texts.new first class own) }
{
    let row = text_row(alloc, file.pool.as_slice(), texts)?;
    let methods = method_pairs(alloc, row.as_slice(), file.methods.as_slice())?;
    let fields = field_pairs(alloc, row.as_slice(), file.fields.as_slice())?;
    let entries = entry_numbers(alloc, row.as_slice(), file.pool.as_slice())?;
    let own = ClassNumbers::new(alloc, first, methods, fields, entries)?;
    Ok(own)
}

// The number of the text of each entry of a pool: each text is looked up once.
fn text_row(alloc: Global, pool: &[PoolEntry], texts: &mut Texts) -> Result<Vec<u32>, NoMemory>
    ensures keeps { OnOk result (Keeps texts.old texts.new) }
    ensures row { IfOk result (λ row. IsTextRow texts.new pool.now row.items) }
{
    let mut row = Vec::new(alloc);
    for entry in pool {
        let number = entry_text(alloc, entry, texts)?;
        row.push(number)?;
    }
    Ok(row)
}

// The number of the text of an entry; 0 where it has none.
fn entry_text(alloc: Global, entry: &PoolEntry, texts: &mut Texts) -> Result<u32, NoMemory>
    ensures keeps { OnOk result (Keeps texts.old texts.new) }
    ensures number { IfOk result (HasNumber texts.new entry.now) }
{
    match text_of(entry) {
        Some(text) => number_of_text(alloc, text, texts),
        None => Ok(0),
    }
}

fn text_of(entry: &PoolEntry) -> Option<&[u8]>
    ensures { option_copied result ≡ text_of entry.now }
{
    match entry {
        PoolEntry::Utf8(text) => Some(text.as_slice()),
        _ => None,
    }
}

/// The number of a text, which is added unless it is there. Texts without numbers of 32 bits count as out of memory.
pub(crate) fn number_of_text(alloc: Global, text: &[u8], texts: &mut Texts) -> Result<u32, NoMemory>
    ensures texts { OnOk result (texts.new ≡ with_text texts.old text.now) }
    ensures keeps { OnOk result (Keeps texts.old texts.new) }
    ensures number { IfOk result (λ number. slice_get texts.new number ≡ Some text.now) }
{
    let place = texts.place(alloc, text)?;
    match u32::try_from(place) {
        Ok(number) => Ok(number),
        Err(_) => Err(NoMemory),
    }
}

// The number at an entry; 0 behind the end.
fn number_at(row: &[u32], index: u16) -> u32
    ensures { result ≡ slice_index_or row.now index 0 }
{
    match row.get(index as usize) {
        Some(number) => *number,
        None => 0,
    }
}

// The pair of a name and a descriptor, by their entries.
fn pair_at(row: &[u32], name: u16, kind: u16) -> Pair
    ensures { result ≡ pair_at row.now name kind }
{
    Pair {
        name: number_at(row, name),
        kind: number_at(row, kind),
    }
}

fn method_pairs(alloc: Global, row: &[u32], methods: &[Method]) -> Result<Vec<Pair>, NoMemory>
    ensures { IfOk result (λ pairs. pairs.items ≡ map (method_pair row.now) methods.now) }
{
    let mut pairs = Vec::new(alloc);
    for method in methods {
        pairs.push(pair_at(row, method.name, method.kind))?;
    }
    Ok(pairs)
}

fn field_pairs(alloc: Global, row: &[u32], fields: &[Field]) -> Result<Vec<Pair>, NoMemory>
    ensures { IfOk result (λ pairs. pairs.items ≡ map (field_pair row.now) fields.now) }
{
    let mut pairs = Vec::new(alloc);
    for field in fields {
        pairs.push(pair_at(row, field.name, field.kind))?;
    }
    Ok(pairs)
}

// What each entry of a pool names, if it names a member.
fn entry_numbers(
    alloc: Global,
    row: &[u32],
    pool: &[PoolEntry],
) -> Result<Vec<Option<EntryNumbers>>, NoMemory>
    ensures { IfOk result (λ told. told.items ≡ map (entry_numbers pool.now row.now) pool.now) }
{
    let mut told = Vec::new(alloc);
    for entry in pool {
        told.push(entry_named(pool, row, entry))?;
    }
    Ok(told)
}

fn entry_named(pool: &[PoolEntry], row: &[u32], entry: &PoolEntry) -> Option<EntryNumbers>
    ensures { result ≡ entry_numbers pool.now row.now entry.now }
{
    match entry {
        PoolEntry::Field(class, name_type) => numbers_by(pool, row, *class, *name_type),
        PoolEntry::Method(class, name_type) => numbers_by(pool, row, *class, *name_type),
        PoolEntry::InterfaceMethod(class, name_type) => numbers_by(pool, row, *class, *name_type),
        _ => None,
    }
}

// The member of one entry, sought in the type of the other.
fn numbers_by(pool: &[PoolEntry], row: &[u32], class: u16, name_type: u16) -> Option<EntryNumbers>
    ensures { result ≡ numbers_by pool.now row.now class name_type }
{
    match (class_index(pool, class), name_type_at(pool, name_type)) {
        (Some(name), Some((member, kind))) => Some(EntryNumbers {
            class: number_at(row, name),
            member: pair_at(row, member, kind),
        }),
        _ => None,
    }
}

// The entry of the name of the Class entry of that number.
fn class_index(pool: &[PoolEntry], index: u16) -> Option<u16>
    ensures { result ≡ class_index pool.now index }
{
    match pool.get(index as usize) {
        Some(PoolEntry::Class(name)) => Some(*name),
        _ => None,
    }
}

// The entries of the name and of the descriptor of the NameAndType entry of that number.
fn name_type_at(pool: &[PoolEntry], index: u16) -> Option<(u16, u16)>
    ensures { result ≡ name_type_at pool.now index }
{
    match pool.get(index as usize) {
        Some(PoolEntry::NameType(name, kind)) => Some((*name, *kind)),
        _ => None,
    }
}
