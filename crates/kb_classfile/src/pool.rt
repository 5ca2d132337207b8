//! Looking into the constant pool.

ghost use Rattle.std.specs.Prelude.{◌≡◌, None, Some, IfOk, IfErr};
ghost use Rattle.std.specs.Option.{option_copied};
ghost use Rattle.kb_classfile.specs.Pool.{utf8_in, class_name_in, is_text, entry_at, is_of_kind, fault_of, first_fault_of};

use crate::file::PoolEntry;
use crate::refusal::ClassRefusal;

/// What kind of entry a number must name.
#[derive(Clone, Copy)]
pub enum EntryKind {
    /// A Utf8 entry.
    Text,
    /// A Class entry.
    Class,
    /// A NameAndType entry.
    NameType,
}

/// A number that names an entry of the constant pool, and the offset of the number in the file.
#[derive(Clone, Copy)]
pub struct Reference {
    pub at: usize,
    pub index: u16,
    pub kind: EntryKind,
}

/// The bytes of the Utf8 entry with this number.
pub fn utf8_in(pool: &[PoolEntry], index: u16) -> Option<&[u8]>
    ensures { option_copied result ≡ utf8_in pool.now index }
{
    match pool.get(index as usize) {
        Some(PoolEntry::Utf8(text)) => Some(text.as_slice()),
        _ => None,
    }
}

/// The bytes of the name of the Class entry with this number.
pub fn class_name_in(pool: &[PoolEntry], index: u16) -> Option<&[u8]>
    ensures { option_copied result ≡ class_name_in pool.now index }
{
    match pool.get(index as usize) {
        Some(PoolEntry::Class(name)) => utf8_in(pool, *name),
        _ => None,
    }
}

/// Whether a text was found, and is this one.
pub fn is_text(found: Option<&[u8]>, text: &[u8]) -> bool
    ensures { result ≡ is_text text.now (option_copied found.entry) }
{
    match found {
        Some(found) => found == text,
        None => false,
    }
}

/// Whether an entry is of the kind.
fn is_of_kind(kind: EntryKind, entry: &PoolEntry) -> bool
    ensures { result ≡ is_of_kind kind entry.now }
{
    match kind {
        EntryKind::Text => matches!(entry, PoolEntry::Utf8(_)),
        EntryKind::Class => matches!(entry, PoolEntry::Class(_)),
        EntryKind::NameType => matches!(entry, PoolEntry::NameType(_, _)),
    }
}

/// The entry with this number. There is none with the number 0.
fn entry_at(pool: &[PoolEntry], index: u16) -> Option<&PoolEntry>
    ensures { option_copied result ≡ entry_at pool.now index }
{
    if index == 0 {
        return None;
    }
    pool.get(index as usize)
}

/// What is wrong with a reference: its number names no entry, or one of another kind.
pub fn fault_of(pool: &[PoolEntry], reference: Reference) -> Option<ClassRefusal>
    ensures { result ≡ fault_of pool.now reference }
{
    let Reference { at, index, kind } = reference;
    match entry_at(pool, index) {
        None => Some(ClassRefusal::PoolIndex(at, index)),
        Some(entry) if is_of_kind(kind, entry) => None,
        Some(_) => Some(ClassRefusal::PoolKind(at, index)),
    }
}

/// The number of a reference, if nothing is wrong with it.
pub fn checked_index(pool: &[PoolEntry], reference: Reference) -> Result<u16, ClassRefusal>
    ensures ok { IfOk result (λ index. (index ≡ reference.index) × (fault_of pool.now reference ≡ None)) }
    ensures err { IfErr result (λ refusal. fault_of pool.now reference ≡ Some refusal) }
{
    match fault_of(pool, reference) {
        Some(fault) => Err(fault),
        None => Ok(reference.index),
    }
}

/// The first fault of these references.
pub fn first_fault_of(pool: &[PoolEntry], references: &[Reference]) -> Option<ClassRefusal>
    ensures { result ≡ first_fault_of pool.now references.now }
{
    let mut rest = references;
    while let [first, others @ ..] = rest {
        if let Some(fault) = fault_of(pool, *first) {
            return Some(fault);
        }
        rest = others;
    }
    None
}
