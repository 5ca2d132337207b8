//! What an entry of the constant pool stands for, looked up in the tables.

ghost use Rattle.std.specs.Prelude.{◌≡◌, Some, slice_get, option_map};
ghost use Rattle.std.specs.Option.{option_copied};
ghost use Rattle.kb_class.specs.Loaded.{told_at, told_text, told_int, type_in, member_in, sought_told, told_reference};
ghost use Rattle.kb_class.specs.References.{sought_of};

use crate::members::MemberKind;
use kb_classfile::{ClassFile, PoolEntry};
use kb_names::ExactType;

/// What an entry names that names a member: a Fieldref, a Methodref or an InterfaceMethodref (JVMS 8 section 4.4.2).
#[derive(Clone, Copy, PartialEq, Eq)]
pub enum ReferenceKind {
    Field,
    Method,
    InterfaceMethod,
}

/// A field or a method that an entry names, by the type that it is sought in, its name and its type.
#[derive(Clone, Copy)]
pub struct Reference<'a> {
    pub what: ReferenceKind,
    pub class: &'a ExactType,
    pub name: &'a [u8],
    pub kind: &'a MemberKind,
}

/// The text of the String entry with that number.
pub(crate) fn text_entry(file: &ClassFile, entry: u16) -> Option<&[u8]>
    ensures { option_copied result ≡ told_text file.now.pool (slice_get file.now.pool entry) }
{
    match file.pool.as_slice().get(entry as usize) {
        Some(PoolEntry::Str(text)) => file.utf8(*text),
        _ => None,
    }
}

/// The int of the Integer entry with that number.
pub(crate) fn int_entry(file: &ClassFile, entry: u16) -> Option<i32>
    ensures { result ≡ told_int (slice_get file.now.pool entry) }
{
    match file.pool.as_slice().get(entry as usize) {
        Some(PoolEntry::Integer(value)) => Some(*value),
        _ => None,
    }
}

/// The type of the Class entry with that number.
pub(crate) fn type_entry<'a>(
    file: &ClassFile,
    types: &'a [Option<ExactType>],
    entry: u16,
) -> Option<&'a ExactType>
    ensures { option_copied result ≡ type_in file.now.pool types.now entry }
{
    match file.pool.as_slice().get(entry as usize) {
        Some(PoolEntry::Class(name)) => told_at(types, *name),
        _ => None,
    }
}

// What a table has at a number.
fn told_at<T>(table: &[Option<T>], number: u16) -> Option<&T>
    ensures { option_copied result ≡ told_at table.now number }
{
    match table.get(number as usize) {
        Some(Some(found)) => Some(found),
        _ => None,
    }
}

/// What the entry with that number names, if it names a member.
pub(crate) fn reference_entry<'a>(
    file: &'a ClassFile,
    types: &'a [Option<ExactType>],
    kinds: &'a [Option<MemberKind>],
    entry: u16,
) -> Option<Reference<'a>>
    ensures { option_map sought_of result ≡ told_reference file.now.pool types.now kinds.now (slice_get file.now.pool entry) }
{
    match file.pool.as_slice().get(entry as usize) {
        Some(PoolEntry::Field(class, name_type)) => {
            sought_in(ReferenceKind::Field, file, types, *class, kinds, *name_type)
        }
        Some(PoolEntry::Method(class, name_type)) => {
            sought_in(
                ReferenceKind::Method,
                file,
                types,
                *class,
                kinds,
                *name_type,
            )
        }
        Some(PoolEntry::InterfaceMethod(class, name_type)) => {
            sought_in(
                ReferenceKind::InterfaceMethod,
                file,
                types,
                *class,
                kinds,
                *name_type,
            )
        }
        _ => None,
    }
}

// The member of one entry, sought in the type of the other.
fn sought_in<'a>(
    what: ReferenceKind,
    file: &'a ClassFile,
    types: &'a [Option<ExactType>],
    class: u16,
    kinds: &'a [Option<MemberKind>],
    name_type: u16,
) -> Option<Reference<'a>>
    ensures { option_map sought_of result ≡ sought_told what (type_in file.now.pool types.now class) (member_in file.now.pool kinds.now name_type) }
{
    let class = type_entry(file, types, class)?;
    sought(what, class, file, kinds, name_type)
}

// The member of the NameAndType entry with that number, sought in the type.
fn sought<'a>(
    what: ReferenceKind,
    class: &'a ExactType,
    file: &'a ClassFile,
    kinds: &'a [Option<MemberKind>],
    name_type: u16,
) -> Option<Reference<'a>>
    ensures { option_map sought_of result ≡ sought_told what (Some class.now) (member_in file.now.pool kinds.now name_type) }
{
    let Some(PoolEntry::NameType(name, kind)) = file.pool.as_slice().get(name_type as usize) else {
        return None;
    };
    let Some(name) = file.utf8(*name) else {
        return None;
    };
    let Some(kind) = told_at(kinds, *kind) else {
        return None;
    };
    Some(Reference {
        what,
        class,
        name,
        kind,
    })
}
