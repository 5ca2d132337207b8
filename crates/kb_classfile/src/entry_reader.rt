//! The entries of the constant pool, one by one (JVMS 8 sections 4.4.1 to 4.4.10).

ghost use Rattle.std.specs.Prelude.{ℕ};
ghost use Rattle.kb_classfile.specs.Reading.{Gives, utf8_entry, integer_entry, float_entry, wide_entry, handle_entry, one_index, two_indices, info, entry};
ghost use Rattle.kb_classfile.specs.declared.file.PoolEntry.{PoolEntry};

use crate::file::PoolEntry;
use crate::reader::Reader;
use crate::refusal::ClassRefusal;
use kb_rows::Row;
use std::alloc::Global;

// The tags of entries (JVMS 8 table 4.4-A).
const UTF8: u8 = 1;

const INTEGER: u8 = 3;

const FLOAT: u8 = 4;

const LONG: u8 = 5;

const DOUBLE: u8 = 6;

const CLASS: u8 = 7;

const STRING: u8 = 8;

const FIELD: u8 = 9;

const METHOD: u8 = 10;

const INTERFACE_METHOD: u8 = 11;

const NAME_AND_TYPE: u8 = 12;

const METHOD_HANDLE: u8 = 15;

const METHOD_TYPE: u8 = 16;

const INVOKE_DYNAMIC: u8 = 18;

impl<'a> Reader<'a> {
    #[tactic(auto, unfolding(crate::specs::Reading::utf8_entry))]
    fn utf8_entry(&mut self, alloc: Global) -> Result<PoolEntry, ClassRefusal>
        ensures { Gives (λ entry. (entry, self.new)) result (utf8_entry self.old) }
    {
        let len = self.u2()?;
        let text = self.run(len as usize)?;
        Ok(PoolEntry::Utf8(Row::from_vec(Vec::from_slice(alloc, text)?)))
    }

    #[tactic(auto, unfolding(crate::specs::Reading::integer_entry))]
    fn integer_entry(&mut self) -> Result<PoolEntry, ClassRefusal>
        ensures { Gives (λ entry. (entry, self.new)) result (integer_entry self.old) }
    {
        let bits = self.u4()?;
        Ok(PoolEntry::Integer(bits.cast_signed()))
    }

    #[tactic(auto, unfolding(crate::specs::Reading::float_entry))]
    fn float_entry(&mut self) -> Result<PoolEntry, ClassRefusal>
        ensures { Gives (λ entry. (entry, self.new)) result (float_entry self.old) }
    {
        self.u4()?;
        Ok(PoolEntry::Skipped)
    }

    /// A Long or Double.
    #[tactic(auto, unfolding(crate::specs::Reading::wide_entry))]
    fn wide_entry(&mut self) -> Result<PoolEntry, ClassRefusal>
        ensures { Gives (λ entry. (entry, self.new)) result (wide_entry self.old) }
    {
        self.run(8)?;
        Ok(PoolEntry::Wide)
    }

    #[tactic(auto, unfolding(crate::specs::Reading::handle_entry))]
    fn handle_entry(&mut self) -> Result<PoolEntry, ClassRefusal>
        ensures { Gives (λ entry. (entry, self.new)) result (handle_entry self.old) }
    {
        self.u1()?;
        self.u2()?;
        Ok(PoolEntry::Skipped)
    }

    /// The number in an entry that has one.
    #[tactic(auto, unfolding(crate::specs::Reading::one_index))]
    fn one_index(&mut self) -> Result<u16, ClassRefusal>
        ensures { (make : ℕ → PoolEntry) → Gives (λ index. (make index, self.new)) result (one_index make self.old) }
    {
        self.u2()
    }

    /// The numbers in an entry that has two.
    #[tactic(auto, unfolding(crate::specs::Reading::two_indices))]
    fn two_indices(&mut self) -> Result<(u16, u16), ClassRefusal>
        ensures { (make : ℕ → ℕ → PoolEntry) → Gives (λ pair. (make pair.0 pair.1, self.new)) result (two_indices make self.old) }
    {
        let first = self.u2()?;
        let second = self.u2()?;
        Ok((first, second))
    }

    /// What stands behind the tag of the entry with the number `number`.
    #[tactic(auto, unfolding(crate::specs::Reading::info))]
    fn info(&mut self, alloc: Global, number: u16, tag: u8) -> Result<PoolEntry, ClassRefusal>
        ensures { Gives (λ entry. (entry, self.new)) result (info number tag self.old) }
    {
        match tag {
            UTF8 => self.utf8_entry(alloc),
            INTEGER => self.integer_entry(),
            FLOAT => self.float_entry(),
            LONG | DOUBLE => self.wide_entry(),
            CLASS => Ok(PoolEntry::Class(self.one_index()?)),
            STRING => Ok(PoolEntry::Str(self.one_index()?)),
            FIELD => {
                let (class, member) = self.two_indices()?;
                Ok(PoolEntry::Field(class, member))
            }
            METHOD => {
                let (class, member) = self.two_indices()?;
                Ok(PoolEntry::Method(class, member))
            }
            INTERFACE_METHOD => {
                let (class, member) = self.two_indices()?;
                Ok(PoolEntry::InterfaceMethod(class, member))
            }
            NAME_AND_TYPE => {
                let (name, kind) = self.two_indices()?;
                Ok(PoolEntry::NameType(name, kind))
            }
            METHOD_HANDLE => self.handle_entry(),
            METHOD_TYPE => {
                self.one_index()?;
                Ok(PoolEntry::Skipped)
            }
            INVOKE_DYNAMIC => {
                self.two_indices()?;
                Ok(PoolEntry::Skipped)
            }
            _ => Err(ClassRefusal::Tag(number, tag)),
        }
    }

    /// The entry with the number `number`.
    #[tactic(auto, unfolding(crate::specs::Reading::entry))]
    pub fn entry(&mut self, alloc: Global, number: u16) -> Result<PoolEntry, ClassRefusal>
        ensures { Gives (λ entry. (entry, self.new)) result (entry number self.old) }
    {
        let tag = self.u1()?;
        self.info(alloc, number, tag)
    }
}
