//! The fields that have slots, by their texts.
ghost use Rattle.std.specs.Prelude.{◌≡◌, ◌<◌, ◌≤◌, ◌^◌, ℕ, List, length, IfOk, IfSome, IfNone, OnOk};
ghost use Rattle.kb_link.specs.Links.{IsLinked};
ghost use Rattle.kb_semantics.specs.Values.{slots_of_class};
ghost use Rattle.kb_report_known.specs.Fields.{IsTextOf, is_there_below, is_below, has_field_at};
ghost use Rattle.kb_report_known.specs.Tables.{find_in, most_in, AddsFields, AddsField, AddsOwn, AreFew, AreFields, AreMost, Notes, NotesOne, most_below};

use crate::NoMemory;
use crate::known::INDICES;
use indexmap::IndexMap;
use kb_class::ClassId;
use kb_names::{ExactType, Name};
use kb_path_words::Text;
use kb_report_text::{NamedWorld, write_field};
use kb_semantics::{FieldSlot, World};
use std::alloc::Global;
use std::collections::BTreeMap;
use std::marker::Model;

/// A field with a slot: the class that declares it, and the slot's number. In an object of each class below it has that number.
#[derive(Clone, Copy, PartialEq, Eq)]
pub struct FieldAt {
    pub class: ClassId,
    pub slot: u32,
}

/// The fields of a world's classes that have slots, by what stands behind the dot of a slot in a report. Contracts see the world.
#[derive(Drop)]
pub struct Fields<'a> {
    world: &'a World,
    numbers: IndexMap<Vec<u8>, FieldAt>,
    // Of each class how many slots an object of it or of one below it has at most.
    most: BTreeMap<u32, usize>,
}

impl<'a> Model for Fields<'a> {
    ghost use Rattle.std.specs.Prelude.{length};
    ghost use Rattle.kb_classes.specs.World.{World as PlainWorld};
    ghost use Rattle.kb_report_known.specs.Tables.{find_in, most_in, AreFew, AreFields, AreMost};

    ghost Value = { PlainWorld };

    ghost view = { λ f. f.world.now };

    ghost invariant = { λ f. AreFields f.world.now (length f.world.now.classes) (find_in f.numbers) × AreMost f.world.now (length f.world.now.classes) (most_in f.most) × AreFew f.world.now (length f.world.now.classes) };
}

impl<'a> Fields<'a> {
    /// The fields of that world, in a time that grows with the slots of its classes.
    pub fn of(alloc: Global, world: &'a World) -> Result<Fields<'a>, NoMemory>
        ensures { IfOk result (λ fields. fields ≡ world.now) }
    {
        let numbers = numbers_of(alloc, world)?;
        let most = most_of(alloc, world)?;
        Ok(Fields {
            world,
            numbers,
            most,
        })
    }

    /// The world of the fields.
    pub fn world(&self) -> &World
        ensures { result.now ≡ self.now }
    {
        self.world
    }

    /// Does nothing. A world that has classes is linked.
    pub fn tell_linked(&self)
        ensures { 0 < length self.now.classes → IsLinked self.now }
    {
        if !self.world.has_class(ClassId(0)) {
            return;
        }
        let _ = self.world.name_of(ClassId(0));
    }

    /// Does nothing. A class has at most as many slots as there are numbers of 32 bits.
    pub fn tell_few(&self)
        ensures { (name : List ℕ) → length (slots_of_class self.now name) ≤ 2 ^ 32 }
    {
        let _ = &self.world;
    }

    /// The field with that text.
    pub fn named(&self, text: &[u8]) -> Option<FieldAt>
        ensures some { IfSome result (IsTextOf self.now text.now) }
        ensures none { IfNone result ((field : FieldAt) → IsTextOf self.now text.now field → ⊥) }
    {
        match self.numbers.get(text) {
            Some(field) => Some(*field),
            None => None,
        }
    }

    /// Whether objects of the class have the field.
    pub fn has(&self, class: ClassId, field: FieldAt) -> bool
        ensures { result ≡ is_there_below self.now class.0 field.class.0 }
    {
        if !self.world.has_class(class) {
            return false;
        }
        self.is_of(self.world.name_of(class), field)
    }

    /// Whether objects of the class of that name have the field.
    pub fn is_of(&self, name: &Name, field: FieldAt) -> bool
        ensures { result ≡ is_below self.now name.now field.class.0 }
    {
        self.world.is_in_chain(name, field.class)
    }

    /// How many slots an object of the class has; none where it is not there.
    pub fn count(&self, name: &Name) -> usize
        ensures { result ≡ length (slots_of_class self.now name.now) }
    {
        self.world.slots_named(name).len()
    }

    /// How many slots an object has at most that has the field.
    pub fn most(&self, field: FieldAt) -> usize
        ensures { result ≡ most_below self.now (length self.now.classes) field.class.0 }
    {
        most_at(&self.most, field.class.0)
    }

    /// Whether objects of the exact type have the field.
    pub fn has_kind(&self, kind: &ExactType, field: FieldAt) -> bool
        ensures { result ≡ has_field_at self.now kind.now field }
    {
        match kind {
            ExactType::Class(name) => self.is_of(name, field),
            ExactType::Array(_) => false,
        }
    }
}

// ---- the table of the fields

// The fields of each class that have slots. Classes without numbers of 32 bits count as out of memory.
fn numbers_of(alloc: Global, world: &World) -> Result<IndexMap<Vec<u8>, FieldAt>, NoMemory>
    ensures { IfOk result (λ numbers. AreFields world.now (length world.now.classes) (find_in numbers)) }
{
    let named = NamedWorld::of(alloc, world)?;
    let mut numbers = IndexMap::new(alloc);
    let mut number: u32 = 0;
    while world.has_class(ClassId(number)) {
        let class = ClassId(number);
        add_fields(alloc, &named, class, world.fields_of(class), &mut numbers)?;
        let Some(next) = number.checked_add(1) else {
            return Err(NoMemory);
        };
        number = next;
    }
    Ok(numbers)
}

// Adds those of the slots that the class declares.
fn add_fields(
    alloc: Global,
    named: &NamedWorld<'_>,
    class: ClassId,
    slots: &[FieldSlot],
    numbers: &mut IndexMap<Vec<u8>, FieldAt>,
) -> Result<(), NoMemory>
    ensures { OnOk result (AddsFields named.now class.0 slots.now (find_in numbers.old) (find_in numbers.new)) }
{
    let mut rest = slots;
    while let [slot, others @ ..] = rest {
        add_own(alloc, named, class, slot, numbers)?;
        rest = others;
    }
    Ok(())
}

// Adds the slot if the class declares it.
fn add_own(
    alloc: Global,
    named: &NamedWorld<'_>,
    class: ClassId,
    slot: &FieldSlot,
    numbers: &mut IndexMap<Vec<u8>, FieldAt>,
) -> Result<(), NoMemory>
    ensures { OnOk result (AddsOwn named.now class.0 slot.now (find_in numbers.old) (find_in numbers.new)) }
{
    if slot.class.0 != class.0 {
        return Ok(());
    }
    add_field(alloc, named, slot, numbers)
}

fn add_field(
    alloc: Global,
    named: &NamedWorld<'_>,
    slot: &FieldSlot,
    numbers: &mut IndexMap<Vec<u8>, FieldAt>,
) -> Result<(), NoMemory>
    ensures { OnOk result (AddsField named.now slot.now (find_in numbers.old) (find_in numbers.new)) }
{
    let mut text = Text::new(alloc);
    write_field(&mut text, named, slot)?;
    let field = FieldAt {
        class: slot.class,
        slot: slot.slot,
    };
    numbers.insert(text.into_bytes(), field)?;
    Ok(())
}

// ---- the table of the most slots

// Of each class the most slots that an object has which has a field of it. Slots without numbers of 32 bits count as out of memory.
fn most_of(alloc: Global, world: &World) -> Result<BTreeMap<u32, usize>, NoMemory>
    ensures most { IfOk result (λ most. AreMost world.now (length world.now.classes) (most_in most)) }
    ensures few { OnOk result (AreFew world.now (length world.now.classes)) }
{
    let mut most = BTreeMap::new(alloc);
    let mut number: u32 = 0;
    while world.has_class(ClassId(number)) {
        let slots = world.fields_of(ClassId(number));
        if slots.len() as u64 > INDICES {
            return Err(NoMemory);
        }
        note_counts(slots, &mut most)?;
        let Some(next) = number.checked_add(1) else {
            return Err(NoMemory);
        };
        number = next;
    }
    Ok(most)
}

// Notes how many slots an object has, for each class that declares one of them.
fn note_counts(slots: &[FieldSlot], most: &mut BTreeMap<u32, usize>) -> Result<(), NoMemory>
    ensures { OnOk result (Notes slots.now (length slots.now) (most_in most.old) (most_in most.new)) }
{
    note_all(slots, slots.len(), most)
}

fn note_all(
    slots: &[FieldSlot],
    count: usize,
    most: &mut BTreeMap<u32, usize>,
) -> Result<(), NoMemory>
    ensures { OnOk result (Notes slots.now count (most_in most.old) (most_in most.new)) }
{
    let mut rest = slots;
    while let [slot, others @ ..] = rest {
        note_count(slot.class.0, count, most)?;
        rest = others;
    }
    Ok(())
}

fn note_count(class: u32, count: usize, most: &mut BTreeMap<u32, usize>) -> Result<(), NoMemory>
    ensures { OnOk result (NotesOne class count (most_in most.old) (most_in most.new)) }
{
    if most_at(most, class) >= count {
        return Ok(());
    }
    most.insert(class, count)?;
    Ok(())
}

fn most_at(most: &BTreeMap<u32, usize>, class: u32) -> usize
    ensures { result ≡ most_in most.now class }
{
    match most.get(&class) {
        Some(count) => *count,
        None => 0,
    }
}
