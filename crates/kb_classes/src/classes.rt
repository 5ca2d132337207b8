//! Classes by their numbers and by their names.
ghost use Rattle.std.specs.Prelude.{◌≡◌, ◌<◌, ◌^◌, IfOk, OnOk, IfErr, Some, map, length, slice_get};
ghost use Rattle.kb_classes.specs.World.{number_in};
ghost use Rattle.kb_classes.specs.Rules.{HaveDifferentNames, name_of};
ghost use Rattle.kb_classes.specs.Refusals.{RefusesClasses, IsRefusalOf};
ghost use Rattle.kb_classes.specs.Names.{HasNames, AddsName, AddsNewName, HasName};
ghost use Rattle.kb_classes.specs.declared.refusal.LinkRefusal.TheVariants as refusals;

use crate::name_text::NameText;
use crate::refusal::LinkRefusal;
use indexmap::IndexSet;
use kb_class::LoadedClass;
use kb_names::{Name, NoMemory};
use std::alloc::Global;
use std::marker::Model;

/// Classes of different names in their order, and by their names. Contracts see the list of the classes.
#[derive(Drop)]
pub struct Classes {
    list: Vec<LoadedClass>,
    // The names of the classes, in the same order: each is shared with its class.
    names: IndexSet<Name>,
}

impl Model for Classes {
    ghost use Rattle.std.specs.Prelude.{List, ◌≡◌};
    ghost use Rattle.kb_class.specs.Class.{Class};

    ghost Value = { List Class };

    ghost use Rattle.kb_classes.specs.Names.{HasNames};
    ghost use Rattle.kb_classes.specs.Rules.{HaveDifferentNames};

    ghost view = { λ c. c.list.items };

    ghost invariant = { λ c. HaveDifferentNames c.list.items × HasNames c.names c.list.items };
}

impl Classes {
    /// These classes. The name that two of them have is refused, by the second class that has the name of another.
    pub fn new(alloc: Global, list: Vec<LoadedClass>) -> Result<Classes, LinkRefusal>
        ensures same { IfOk result (λ classes. classes ≡ list.items) }
        ensures differ { IfOk result HaveDifferentNames }
        ensures refused { IfErr result (RefusesClasses list.items) }
    {
        let names = names_of(alloc, list.as_slice())?;
        Ok(Classes { list, names })
    }

    /// The classes in the order of their numbers. No two have one name.
    pub fn as_slice(&self) -> &[LoadedClass]
        ensures same { result.now ≡ self.now }
        ensures differ { HaveDifferentNames self.now }
        ensures few { length self.now < 2 ^ 32 }
    {
        self.list.as_slice()
    }

    /// The number of the class of that name.
    pub fn number_of(&self, name: &[u8]) -> Option<u32>
        ensures { result ≡ number_in self.now name.now }
    {
        let number = self.names.get_index_of(NameText { bytes: name })?;
        Some(number as u32)
    }
}

// The names of these classes. Classes without a number of 32 bits count as out of memory.
fn names_of(alloc: Global, classes: &[LoadedClass]) -> Result<IndexSet<Name>, LinkRefusal>
    ensures differ { IfOk result (λ names. HaveDifferentNames classes.now) }
    ensures names { IfOk result (λ names. HasNames names classes.now) }
    ensures refused { IfErr result (RefusesClasses classes.now) }
{
    if classes.len() >= u32::MAX as usize {
        return Err(LinkRefusal::NoMemory);
    }
    let mut names = IndexSet::new(alloc);
    let mut rest = classes;
    while let [class, others @ ..] = rest {
        add_name(alloc, &mut names, class.name())?;
        rest = others;
    }
    Ok(names)
}

// Adds the name of one class more, unless a class before it has that name.
fn add_name(alloc: Global, names: &mut IndexSet<Name>, name: &Name) -> Result<(), LinkRefusal>
    ensures more { OnOk result (AddsName names.old names.new name.now) }
    ensures refused { IfErr result (HasName names.old name.now) }
{
    if names.get_index_of(name).is_some() {
        return Err(twice(alloc, name));
    }
    match add_new(alloc, names, name) {
        Ok(()) => Ok(()),
        Err(_) => Err(LinkRefusal::NoMemory),
    }
}

// Adds the name of one class more, which no class before it has.
fn add_new(alloc: Global, names: &mut IndexSet<Name>, name: &Name) -> Result<(), NoMemory>
    ensures { OnOk result (AddsNewName names.old names.new name.now) }
{
    let key = name.copied(alloc)?;
    names.insert(key)?;
    Ok(())
}

// The refusal of a name that two classes have.
fn twice(alloc: Global, name: &Name) -> LinkRefusal
    ensures { IsRefusalOf refusals.Twice name.now result }
{
    match name.copied(alloc) {
        Ok(name) => LinkRefusal::Twice(name),
        Err(_) => LinkRefusal::NoMemory,
    }
}

/// The name of the interface of a class at that place.
pub fn interface_at(class: &LoadedClass, place: usize) -> &[u8]
    requires { place < length class.now.interfaces }
    ensures { slice_get class.now.interfaces place ≡ Some result.now }
{
    match class.interface(place) {
        Some(name) => name,
        None => unreachable!(),
    }
}

/// The name of these bytes: that of the class of the name, where there is one, shared with it.
pub fn shared_name(alloc: Global, classes: &Classes, name: &[u8]) -> Result<Name, NoMemory>
    ensures { IfOk result (λ told. told ≡ name.now) }
{
    match classes.number_of(name) {
        Some(number) => name_at(alloc, classes, number),
        None => Name::from_slice(alloc, name),
    }
}

// The name of the class of that number.
fn name_at(alloc: Global, classes: &Classes, number: u32) -> Result<Name, NoMemory>
    requires { number < length classes.now }
    ensures { IfOk result (λ name. slice_get (map name_of classes.now) number ≡ Some name) }
{
    classes.as_slice()[number as usize].name().copied(alloc)
}
