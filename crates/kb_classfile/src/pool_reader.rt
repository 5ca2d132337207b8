//! The constant pool (JVMS 8 section 4.4): all of its entries, and then their references, which may name entries that
//! stand behind them.

ghost use Rattle.std.specs.Prelude.{◌≡◌, ◌+◌, ◌<◌, ◌^◌, [], ◌∷◌, ◌++◌, length, IfOk, IfErr, OnOk};
ghost use Rattle.kb_classfile.specs.Pool.{first_fault_of, references_of};
ghost use Rattle.kb_classfile.specs.Spelling.{is_wide};
ghost use Rattle.kb_classfile.specs.Reading.{Gives, no_entries, with_entry, with_second, next_entry, next_number, pool_read, pool, index_of};

use crate::file::PoolEntry;
use crate::pool::{EntryKind, Reference, checked_index, first_fault_of};
use crate::reader::Reader;
use crate::refusal::ClassRefusal;
use kb_rows::Row;
use std::alloc::Global;
use std::marker::Model;

/// What has been read of the pool so far: the entries by their numbers, the references in them, and whether the next
/// number is the second one of a Long or Double.
#[derive(Drop)]
pub struct PoolRead {
    entries: Vec<PoolEntry>,
    references: Vec<Reference>,
    due: bool,
}

impl Model for PoolRead {
    ghost use Rattle.kb_classfile.specs.Reading.{PoolRead};

    ghost Value = { PoolRead };

    ghost view = { λ pool. record { entries = pool.entries.items; references = pool.references.items; due = pool.due } };
}

impl PoolRead {
    /// The number 0, which is no entry.
    fn new(alloc: Global) -> Result<PoolRead, ClassRefusal>
        ensures read { IfOk result (λ pool. pool ≡ no_entries) }
        ensures refusal { IfErr result (λ refusal. refusal ≡ ClassRefusal.NoMemory) }
    {
        let mut entries = Vec::new(alloc);
        entries.push(PoolEntry::Skipped)?;
        Ok(PoolRead {
            entries,
            references: Vec::new(alloc),
            due: false,
        })
    }

    /// Puts an entry, whose tag has the offset `at`, behind the others.
    fn push(&mut self, at: usize, entry: PoolEntry) -> Result<(), ClassRefusal>
        requires { at < 2 ^ 63 }
        ensures ok { OnOk result (self.new ≡ with_entry at self.old entry) }
        ensures refusal { IfErr result (λ refusal. refusal ≡ ClassRefusal.NoMemory) }
    {
        push_references(&mut self.references, at, &entry)?;
        self.due = is_wide(&entry);
        self.entries.push(entry)?;
        Ok(())
    }

    /// Puts the second number of a Long or Double behind it.
    fn push_second(&mut self) -> Result<(), ClassRefusal>
        ensures ok { OnOk result (self.new ≡ with_second self.old) }
        ensures refusal { IfErr result (λ refusal. refusal ≡ ClassRefusal.NoMemory) }
    {
        self.due = false;
        self.entries.push(PoolEntry::Second)?;
        Ok(())
    }

    /// Reads the next entry, which has the next number.
    #[tactic(auto, unfolding(crate::specs::Reading::next_entry))]
    fn next_entry(&mut self, alloc: Global, reader: &mut Reader<'_>) -> Result<(), ClassRefusal>
        requires { length self.old.entries < 2 ^ 16 }
        ensures read { Gives (λ _. (self.new, reader.new)) result (next_entry self.old reader.old) }
        ensures len { OnOk result (length self.new.entries ≡ length self.old.entries + 1) }
    {
        let at = reader.offset();
        let entry = reader.entry(alloc, self.entries.len() as u16)?;
        self.push(at, entry)
    }

    /// Reads what has the next number.
    #[tactic(auto, unfolding(crate::specs::Reading::next_number))]
    fn next_number(&mut self, alloc: Global, reader: &mut Reader<'_>) -> Result<(), ClassRefusal>
        requires { length self.old.entries < 2 ^ 16 }
        ensures read { Gives (λ _. (self.new, reader.new)) result (next_number self.old reader.old) }
        ensures len { OnOk result (length self.new.entries ≡ length self.old.entries + 1) }
    {
        if self.due {
            return self.push_second();
        }
        self.next_entry(alloc, reader)
    }

    /// The first fault of the references.
    fn fault(&self) -> Option<ClassRefusal>
        ensures { result ≡ first_fault_of self.now.entries self.now.references }
    {
        first_fault_of(self.entries.as_slice(), self.references.as_slice())
    }

    /// The entries by their numbers.
    fn into_entries(self) -> Row<PoolEntry>
        ensures { result ≡ self.entries }
    {
        Row::from_vec(self.entries)
    }
}

/// Whether an entry is a Long or Double.
fn is_wide(entry: &PoolEntry) -> bool
    ensures { result ≡ is_wide entry.now }
{
    matches!(entry, PoolEntry::Wide)
}

/// Puts the references of an entry, whose tag has the offset `at`, behind the others.
fn push_references(
    references: &mut Vec<Reference>,
    at: usize,
    entry: &PoolEntry,
) -> Result<(), ClassRefusal>
    requires { at < 2 ^ 63 }
    ensures ok { OnOk result (references.new.items ≡ references.old.items ++ references_of at entry.now) }
    ensures refusal { IfErr result (λ refusal. refusal ≡ ClassRefusal.NoMemory) }
{
    match entry {
        PoolEntry::Class(text) | PoolEntry::Str(text) => push_reference(
            references,
            at + 1,
            *text,
            EntryKind::Text,
        ),
        PoolEntry::Field(class, member)
        | PoolEntry::Method(class, member)
        | PoolEntry::InterfaceMethod(class, member) => {
            push_reference(references, at + 1, *class, EntryKind::Class)?;
            push_reference(references, at + 3, *member, EntryKind::NameType)
        }
        PoolEntry::NameType(name, kind) => {
            push_reference(references, at + 1, *name, EntryKind::Text)?;
            push_reference(references, at + 3, *kind, EntryKind::Text)
        }
        _ => Ok(()),
    }
}

fn push_reference(
    references: &mut Vec<Reference>,
    at: usize,
    index: u16,
    kind: EntryKind,
) -> Result<(), ClassRefusal>
    ensures ok { OnOk result (references.new.items ≡ references.old.items ++ record { at = at; index = index; kind = kind } ∷ []) }
    ensures refusal { IfErr result (λ refusal. refusal ≡ ClassRefusal.NoMemory) }
{
    references.push(Reference { at, index, kind })?;
    Ok(())
}

impl<'a> Reader<'a> {
    /// The entries, before their references are looked at. Their count is one more than the numbers; 0 stands for none.
    #[tactic(auto, unfolding(crate::specs::Reading::pool_read))]
    fn pool_read(&mut self, alloc: Global) -> Result<PoolRead, ClassRefusal>
        ensures { Gives (λ pool. (pool, self.new)) result (pool_read self.old) }
    {
        let count = self.u2()?;
        let mut pool = PoolRead::new(alloc)?;
        for _ in 1..count {
            pool.next_number(alloc, self)?;
        }
        Ok(pool)
    }

    /// The constant pool, in which each entry refers well.
    #[tactic(auto, unfolding(crate::specs::Reading::pool))]
    pub fn pool(&mut self, alloc: Global) -> Result<Row<PoolEntry>, ClassRefusal>
        ensures { Gives (λ entries. (entries, self.new)) result (pool self.old) }
    {
        let read = self.pool_read(alloc)?;
        match read.fault() {
            Some(fault) => Err(fault),
            None => Ok(read.into_entries()),
        }
    }

    /// The number of an entry of the kind.
    #[tactic(auto, unfolding(crate::specs::Reading::index_of))]
    pub fn index_of(&mut self, kind: EntryKind, pool: &[PoolEntry]) -> Result<u16, ClassRefusal>
        ensures { Gives (λ index. (index, self.new)) result (index_of kind pool.now self.old) }
    {
        let at = self.offset();
        let index = self.u2()?;
        checked_index(pool, Reference { at, index, kind })
    }
}
