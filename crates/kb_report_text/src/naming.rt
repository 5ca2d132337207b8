//! A world whose fields are told by their names.
ghost use Rattle.std.specs.Prelude.{◌≡◌, ◌||◌, ◌&&◌, List, ℕ, not, IfOk, OnOk};
ghost use Rattle.std.specs.Str.{bytes_eq};
ghost use Rattle.kb_report_text.specs.Slots.{has_namesake};
ghost use Rattle.kb_report_text.specs.Tables.{has_name, AreNamesOfMore, AreShared};

use crate::NoMemory;
use indexmap::IndexSet;
use kb_class::{ClassId, FieldInfo};
use kb_names::Name;
use kb_semantics::{FieldSlot, World};
use std::alloc::Global;
use std::marker::Model;

/// A world, with the names that several fields of one class have: so a field is written in a time that does not depend on how
/// many its class declares. Contracts see the world.
#[derive(Drop)]
pub struct NamedWorld<'a> {
    world: &'a World,
    // Of each class the names that more than one of its fields have.
    shared: Vec<IndexSet<Vec<u8>>>,
}

impl<'a> Model for NamedWorld<'a> {
    ghost use Rattle.kb_classes.specs.World.{World as PlainWorld};
    ghost use Rattle.kb_report_text.specs.Tables.{AreShared};

    ghost Value = { PlainWorld };

    ghost view = { λ w. w.world.now };

    ghost invariant = { λ w. AreShared w.world.now.classes w.shared.items };
}

impl<'a> NamedWorld<'a> {
    /// The world with its table, made in a time that grows with the fields that its classes declare.
    pub fn of(alloc: Global, world: &'a World) -> Result<NamedWorld<'a>, NoMemory>
        ensures { IfOk result (λ named. named ≡ world.now) }
    {
        let shared = shared_in(alloc, world)?;
        Ok(NamedWorld { world, shared })
    }

    /// The world alone.
    pub fn world(&self) -> &World
        ensures { result.now ≡ self.now }
    {
        self.world
    }

    /// Whether another field of the class that declares this one has its name.
    pub fn has_namesake(&self, field: &FieldSlot) -> bool
        ensures { result ≡ has_namesake self.now field.now }
    {
        match self.shared.get(field.class.0 as usize) {
            Some(names) => names.contains(field.name.as_slice()),
            None => false,
        }
    }
}

// Of each class the names that more than one of its fields have. Classes without numbers of 32 bits count as out of memory.
fn shared_in(alloc: Global, world: &World) -> Result<Vec<IndexSet<Vec<u8>>>, NoMemory>
    ensures { IfOk result (λ tables. AreShared world.now.classes tables.items) }
{
    let mut tables = Vec::new(alloc);
    let mut number: u32 = 0;
    while let Some(class) = world.class_at(ClassId(number)) {
        let names = shared_names(alloc, class.fields())?;
        tables.push(names)?;
        let Some(next) = number.checked_add(1) else {
            return Err(NoMemory);
        };
        number = next;
    }
    Ok(tables)
}

// The names that more than one of the fields have.
fn shared_names(alloc: Global, fields: &[FieldInfo]) -> Result<IndexSet<Vec<u8>>, NoMemory>
    ensures { IfOk result (AreNamesOfMore 1 fields.now) }
{
    let mut met = IndexSet::new(alloc);
    let mut shared = IndexSet::new(alloc);
    for field in fields {
        note(alloc, &mut met, &mut shared, &field.name)?;
    }
    Ok(shared)
}

// Adds the name of a field to those that were met, and where it was met before to those that are shared.
fn note(
    alloc: Global,
    met: &mut IndexSet<Vec<u8>>,
    shared: &mut IndexSet<Vec<u8>>,
    name: &Name,
) -> Result<(), NoMemory>
    ensures met { OnOk result ((other : List ℕ) → has_name met.new other ≡ (has_name met.old other || bytes_eq other name.now)) }
    ensures shared { OnOk result ((other : List ℕ) → has_name shared.new other ≡ (has_name shared.old other || (has_name met.old name.now && bytes_eq other name.now))) }
{
    if add_name(alloc, met, name)? {
        return Ok(());
    }
    add_name(alloc, shared, name)?;
    Ok(())
}

// Adds the name, unless it is there; whether it was not.
fn add_name(alloc: Global, names: &mut IndexSet<Vec<u8>>, name: &Name) -> Result<bool, NoMemory>
    ensures new { IfOk result (λ new. new ≡ not (has_name names.old name.now)) }
    ensures names { OnOk result ((other : List ℕ) → has_name names.new other ≡ (has_name names.old other || bytes_eq other name.now)) }
{
    let key = name.as_slice().to_vec(alloc)?;
    let new = names.insert(key)?;
    Ok(new)
}
