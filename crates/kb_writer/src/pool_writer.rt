//! Writing the constant pool (JVMS 8 section 4.4).

ghost use Rattle.std.specs.Prelude.{◌≡◌, ◌<◌, ◌^◌, ◌∷◌, ◌++◌, drop, length, OnOk};
ghost use Rattle.std.specs.List.{AllByRecursion, flat_map};
ghost use Rattle.kb_writer.specs.Numbers.{u2, int};
ghost use Rattle.kb_writer.specs.Files.{IsWritten, IsWritablePool, FitsEntry, entry_bytes, pool_bytes};

use crate::NoMemory;
use crate::numbers::{push_count, push_run, push_u1, push_u2, push_u4};
use kb_classfile::PoolEntry;

/// A tag and a number.
fn push_index(into: &mut Vec<u8>, tag: u8, index: u16) -> Result<(), NoMemory>
    ensures { OnOk result (into.new.items ≡ into.old.items ++ tag ∷ u2 index) }
{
    push_u1(into, tag)?;
    push_u2(into, index)
}

/// A tag and two numbers.
fn push_indices(into: &mut Vec<u8>, tag: u8, first: u16, second: u16) -> Result<(), NoMemory>
    ensures { OnOk result (into.new.items ≡ into.old.items ++ tag ∷ (u2 first ++ u2 second)) }
{
    push_index(into, tag, first)?;
    push_u2(into, second)
}

/// A Utf8 entry.
fn push_text(into: &mut Vec<u8>, text: &[u8]) -> Result<(), NoMemory>
    requires { length text.now < 2 ^ 16 }
    ensures { OnOk result (into.new.items ≡ into.old.items ++ 1 ∷ (u2 (length text.now) ++ text.now)) }
{
    push_u1(into, 1)?;
    push_count(into, text.len())?;
    push_run(into, text)
}

/// An Integer entry.
fn push_int(into: &mut Vec<u8>, value: i32) -> Result<(), NoMemory>
    ensures { OnOk result (into.new.items ≡ into.old.items ++ 3 ∷ int value) }
{
    push_u1(into, 3)?;
    push_u4(into, value.cast_unsigned())
}

/// An entry with its tag.
#[tactic(auto, unfolding(crate::specs::Files::entry_bytes))]
fn push_entry(into: &mut Vec<u8>, entry: &PoolEntry) -> Result<(), NoMemory>
    requires { IsWritten entry.now }
    ensures bytes { OnOk result (into.new.items ≡ into.old.items ++ entry_bytes entry.now) }
    ensures numbers { OnOk result (FitsEntry entry.now) }
{
    match entry {
        PoolEntry::Utf8(text) => push_text(into, text.as_slice()),
        PoolEntry::Integer(value) => push_int(into, *value),
        PoolEntry::Class(name) => push_index(into, 7, *name),
        PoolEntry::Str(text) => push_index(into, 8, *text),
        PoolEntry::Field(class, name_type) => push_indices(into, 9, *class, *name_type),
        PoolEntry::Method(class, name_type) => push_indices(into, 10, *class, *name_type),
        PoolEntry::InterfaceMethod(class, name_type) => push_indices(into, 11, *class, *name_type),
        PoolEntry::NameType(name, kind) => push_indices(into, 12, *name, *kind),
        PoolEntry::Wide | PoolEntry::Second | PoolEntry::Skipped => unreachable!(),
    }
}

/// Entries, one behind the other.
fn push_entries(into: &mut Vec<u8>, entries: &[PoolEntry]) -> Result<(), NoMemory>
    requires { AllByRecursion IsWritten entries.now }
    ensures bytes { OnOk result (into.new.items ≡ into.old.items ++ flat_map entry_bytes entries.now) }
    ensures numbers { OnOk result (AllByRecursion FitsEntry entries.now) }
{
    let mut rest = entries;
    while let [first, others @ ..] = rest {
        push_entry(into, first)?;
        rest = others;
    }
    Ok(())
}

/// The pool, without its entry 0.
#[tactic(auto, unfolding(crate::specs::Files::pool_bytes))]
pub fn push_pool(into: &mut Vec<u8>, pool: &[PoolEntry]) -> Result<(), NoMemory>
    requires { IsWritablePool pool.now }
    ensures bytes { OnOk result (into.new.items ≡ into.old.items ++ pool_bytes pool.now) }
    ensures numbers { OnOk result (AllByRecursion FitsEntry (drop 1 pool.now)) }
{
    push_count(into, pool.len())?;
    push_entries(into, &pool[1..])
}
