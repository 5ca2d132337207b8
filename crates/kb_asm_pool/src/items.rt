//! The entries of a constant pool, each once.

ghost use Rattle.std.specs.Prelude.{◌≡◌, ◌<◌, [], ◌∷◌, length, Some, slice_get, IfOk, OnOk};
ghost use Rattle.std.specs.Option.{option_map};
ghost use Rattle.kb_texts.specs.Texts.{Keeps};
ghost use Rattle.kb_asm_pool.specs.Says.{text as says_text, int as says_int, class as says_class, string as says_string, member as says_member, added, all_added};
ghost use Rattle.kb_asm_pool.specs.Items.{IsWithin, said};
ghost use Rattle.kb_asm_pool.specs.Needs.{class_needs, member_needs};
ghost use Rattle.kb_asm_pool.specs.Entries.{number_in, member_entry, entry_of, entries_of};

use crate::NoMemory;
use indexmap::IndexSet;
use kb_classfile::PoolEntry;
use kb_rows::Row;
use kb_texts::Texts;
use std::alloc::Global;
use std::marker::Model;

/// Which kind of member an entry names.
#[derive(Clone, Copy, PartialEq, Eq, Hash)]
pub enum ReferenceKind {
    Field,
    Method,
    InterfaceMethod,
}

/// What an entry says, its texts by their places (JVMS 8 section 4.4).
#[derive(Clone, Copy, PartialEq, Eq, Hash)]
pub(crate) enum Item {
    Text(usize),
    Int(i32),
    Class(usize),
    Str(usize),
    NameType(usize, usize),
    /// A member by its class, its name and its descriptor.
    Member(ReferenceKind, usize, usize, usize),
}

/// Entries of a constant pool, each once, in the order in which they came. Contracts see what each says.
#[derive(Drop)]
pub struct Items {
    table: Texts,
    set: IndexSet<Item>,
}

impl Model for Items {
    ghost use Rattle.std.specs.Prelude.{map};
    ghost use Rattle.std.specs.List.{AllByRecursion};
    ghost use Rattle.kb_texts.specs.Texts.{AreDistinct};
    ghost use Rattle.kb_asm_pool.specs.Items.{Entries, said, IsWithin};

    ghost Value = { Entries };

    ghost view = { λ i. record { texts = i.table; says = map (said i.table) i.set.keys } };

    ghost invariant = { λ i. AreDistinct i.table × AllByRecursion (IsWithin i.table) i.set.keys };
}

impl Items {
    /// No entries.
    pub fn new(alloc: Global) -> Items
        ensures { result.says ≡ [] }
    {
        Items {
            table: Texts::new(alloc),
            set: IndexSet::new(alloc),
        }
    }

    /// How many entries there are.
    pub fn count(&self) -> usize
        ensures { result ≡ length self.now.says }
    {
        self.set.len()
    }

    /// Adds an item, and gives its place.
    fn add(&mut self, item: Item) -> Result<usize, NoMemory>
        requires { IsWithin self.old.texts item }
        ensures texts { self.new.texts ≡ self.old.texts }
        ensures says { OnOk result (self.new.says ≡ added self.old.says (said self.old.texts item)) }
        ensures entry { IfOk result (λ entry. slice_get self.new.says entry ≡ Some (said self.old.texts item)) }
    {
        let (entry, _) = self.set.insert_full(item)?;
        Ok(entry)
    }

    /// The place of a text among the texts.
    fn place(&mut self, alloc: Global, bytes: &[u8]) -> Result<usize, NoMemory>
        ensures keeps { Keeps self.old.texts self.new.texts }
        ensures says { self.new.says ≡ self.old.says }
        ensures place { IfOk result (λ place. slice_get self.new.texts place ≡ Some bytes.now) }
    {
        self.table.place(alloc, bytes)
    }

    /// Adds a text, and gives its place among the texts and that among the entries.
    fn add_text(&mut self, alloc: Global, bytes: &[u8]) -> Result<(usize, usize), NoMemory>
        ensures keeps { Keeps self.old.texts self.new.texts }
        ensures says { OnOk result (self.new.says ≡ added self.old.says (says_text bytes.now)) }
        ensures place { IfOk result (λ r. slice_get self.new.texts r.0 ≡ Some bytes.now) }
        ensures entry { IfOk result (λ r. slice_get self.new.says r.1 ≡ Some (says_text bytes.now)) }
    {
        let place = self.place(alloc, bytes)?;
        let entry = self.add(Item::Text(place))?;
        Ok((place, entry))
    }

    /// Adds a class or an array type by its name, and gives the place of the name among the texts and that of
    /// the class among the entries.
    fn add_class(&mut self, alloc: Global, name: &[u8]) -> Result<(usize, usize), NoMemory>
        ensures keeps { Keeps self.old.texts self.new.texts }
        ensures says { OnOk result (self.new.says ≡ all_added self.old.says (class_needs name.now)) }
        ensures place { IfOk result (λ r. slice_get self.new.texts r.0 ≡ Some name.now) }
        ensures entry { IfOk result (λ r. slice_get self.new.says r.1 ≡ Some (says_class name.now)) }
    {
        let (place, _) = self.add_text(alloc, name)?;
        let entry = self.add(Item::Class(place))?;
        Ok((place, entry))
    }

    /// Adds a text, and gives its place.
    pub fn text(&mut self, alloc: Global, bytes: &[u8]) -> Result<usize, NoMemory>
        ensures says { OnOk result (self.new.says ≡ added self.old.says (says_text bytes.now)) }
        ensures entry { IfOk result (λ entry. slice_get self.new.says entry ≡ Some (says_text bytes.now)) }
    {
        let (_, entry) = self.add_text(alloc, bytes)?;
        Ok(entry)
    }

    /// Adds a class or an array type by its name, and gives its place.
    pub fn class(&mut self, alloc: Global, name: &[u8]) -> Result<usize, NoMemory>
        ensures says { OnOk result (self.new.says ≡ all_added self.old.says (class_needs name.now)) }
        ensures entry { IfOk result (λ entry. slice_get self.new.says entry ≡ Some (says_class name.now)) }
    {
        let (_, entry) = self.add_class(alloc, name)?;
        Ok(entry)
    }

    /// Adds an int, and gives its place.
    pub fn int(&mut self, number: i32) -> Result<usize, NoMemory>
        ensures says { OnOk result (self.new.says ≡ added self.old.says (says_int number)) }
        ensures entry { IfOk result (λ entry. slice_get self.new.says entry ≡ Some (says_int number)) }
    {
        self.add(Item::Int(number))
    }

    /// Adds a string without its text, and gives its place.
    pub fn string_alone(&mut self, alloc: Global, bytes: &[u8]) -> Result<usize, NoMemory>
        ensures says { OnOk result (self.new.says ≡ added self.old.says (says_string bytes.now)) }
        ensures entry { IfOk result (λ entry. slice_get self.new.says entry ≡ Some (says_string bytes.now)) }
    {
        let place = self.place(alloc, bytes)?;
        self.add(Item::Str(place))
    }

    /// Adds a string, and gives its place.
    pub fn string(&mut self, alloc: Global, bytes: &[u8]) -> Result<usize, NoMemory>
        ensures says { OnOk result (self.new.says ≡ all_added self.old.says (says_text bytes.now ∷ says_string bytes.now ∷ [])) }
        ensures entry { IfOk result (λ entry. slice_get self.new.says entry ≡ Some (says_string bytes.now)) }
    {
        self.text(alloc, bytes)?;
        self.string_alone(alloc, bytes)
    }

    /// Adds a member of a class, with the entries that it names, and gives its place.
    pub fn member(
        &mut self,
        alloc: Global,
        of: ReferenceKind,
        class: &[u8],
        name: &[u8],
        kind: &[u8],
    ) -> Result<usize, NoMemory>
        ensures says { OnOk result (self.new.says ≡ all_added self.old.says (member_needs of class.now name.now kind.now)) }
        ensures entry { IfOk result (λ entry. slice_get self.new.says entry ≡ Some (says_member of class.now name.now kind.now)) }
    {
        let (class, _) = self.add_class(alloc, class)?;
        let (name, _) = self.add_text(alloc, name)?;
        let (kind, _) = self.add_text(alloc, kind)?;
        self.add(Item::NameType(name, kind))?;
        self.add(Item::Member(of, class, name, kind))
    }

    /// The number of an item, from 1, or 0 where it is not there.
    fn number(&self, item: Item) -> u16
        requires within { IsWithin self.now.texts item }
        requires few { length self.now.says < 65535 }
        ensures { result ≡ number_in self.now.says (said self.now.texts item) }
    {
        match self.set.get_index_of(&item) {
            Some(place) => (place + 1) as u16,
            None => 0,
        }
    }

    /// The entry that says what the item says.
    fn entry(&self, alloc: Global, item: Item) -> Result<PoolEntry, NoMemory>
        requires within { IsWithin self.now.texts item }
        requires few { length self.now.says < 65535 }
        ensures { IfOk result (λ entry. entry ≡ entry_of self.now.says (said self.now.texts item)) }
    {
        match item {
            Item::Text(place) => match self.table.get(place) {
                Some(bytes) => Ok(PoolEntry::Utf8(copied(alloc, bytes)?)),
                None => Err(NoMemory),
            },
            Item::Int(number) => Ok(PoolEntry::Integer(number)),
            Item::Class(name) => Ok(PoolEntry::Class(self.number(Item::Text(name)))),
            Item::Str(of) => Ok(PoolEntry::Str(self.number(Item::Text(of)))),
            Item::NameType(name, kind) => {
                let name = self.number(Item::Text(name));
                let kind = self.number(Item::Text(kind));
                Ok(PoolEntry::NameType(name, kind))
            }
            Item::Member(of, owner, name, kind) => {
                let owner = self.number(Item::Class(owner));
                let of_type = self.number(Item::NameType(name, kind));
                Ok(of.entry(owner, of_type))
            }
        }
    }

    /// The entry at a place.
    fn entry_at(&self, alloc: Global, place: usize) -> Result<PoolEntry, NoMemory>
        requires within { place < length self.now.says }
        requires few { length self.now.says < 65535 }
        ensures { IfOk result (λ entry. Some entry ≡ option_map (entry_of self.now.says) (slice_get self.now.says place)) }
    {
        match self.set.get_index(place) {
            Some(item) => self.entry(alloc, *item),
            None => Err(NoMemory),
        }
    }

    /// The entries by their numbers.
    pub fn entries(&self, alloc: Global) -> Result<Row<PoolEntry>, NoMemory>
        requires { length self.now.says < 65535 }
        ensures { IfOk result (λ entries. entries ≡ entries_of self.now.says) }
    {
        let mut entries = Row::new(alloc);
        entries.push(PoolEntry::Skipped)?;
        for place in 0..self.count() {
            entries.push(self.entry_at(alloc, place)?)?;
        }
        Ok(entries)
    }
}

impl ReferenceKind {
    /// The entry of such a member.
    fn entry(self, owner: u16, of_type: u16) -> PoolEntry
        ensures { result ≡ member_entry self owner of_type }
    {
        match self {
            ReferenceKind::Field => PoolEntry::Field(owner, of_type),
            ReferenceKind::Method => PoolEntry::Method(owner, of_type),
            ReferenceKind::InterfaceMethod => PoolEntry::InterfaceMethod(owner, of_type),
        }
    }
}

/// The bytes, copied.
fn copied(alloc: Global, bytes: &[u8]) -> Result<Row<u8>, NoMemory>
    ensures { IfOk result (λ row. row ≡ bytes.now) }
{
    match bytes.to_vec(alloc) {
        Ok(bytes) => Ok(Row::from_vec(bytes)),
        Err(_) => Err(NoMemory),
    }
}
