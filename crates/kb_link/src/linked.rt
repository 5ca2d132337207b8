//! Classes that are linked, and what is known of them.
ghost use Rattle.std.specs.Prelude.{◌≡◌, ◌<◌, ℕ, length, map, Some, slice_get, option_map, IfOk, IfErr, IfSome, IfNone};
ghost use Rattle.std.specs.Option.{option_copied, option_and_then};
ghost use Rattle.kb_class.specs.Class.{Class};
ghost use Rattle.kb_numbers.specs.Numbers.{AreNumbered};
ghost use Rattle.kb_classes.specs.World.{chain_of, method_at, methods_in, number_in, type_entry_of, int_entry_of, literal_entry_of};
ghost use Rattle.kb_classes.specs.Subtypes.{direct_supers, AreChains, AreSupers, is_below, is_super};
ghost use Rattle.kb_classes.specs.Slots.{slots_of, slots_along};
ghost use Rattle.kb_classes.specs.Rules.{HaveDifferentNames, HaveOwnMethods, HaveSupers, HaveNoCircle, HaveGoodSupers};
ghost use Rattle.kb_classes.specs.Split.{HaveNoSplit};
ghost use Rattle.kb_link.specs.Links.{AreLoaded, IsLinked};
ghost use Rattle.kb_classes.specs.Refusals.{RefusesClasses};
ghost use Rattle.kb_classes.specs.Methods.{HasPlaces};
ghost use Rattle.kb_link.specs.Tables.{IsNumberOf};
ghost use Rattle.kb_classes.specs.Initialisers.{has_initialiser, is_initialised};
ghost use Rattle.kb_classes.specs.Placing.{ArePlacings, place_in};
ghost use Rattle.kb_classes.specs.Universe.{IsUniverse, AreLiterals};
ghost use Rattle.kb_link.specs.Targets.{Declares, IsTargetOf};

use crate::supers::{is_super, supers_of};
use kb_class::{ClassId, LoadedClass, MethodId, MethodInfo};
use kb_classes::{
    Classes, FieldSlot, LinkRefusal, MethodPlace, initialised_of, is_special, literals_of,
    place_in, placed_at, places_of, placings_of, shared_name, slots_of, universe_of,
};
use kb_classfile::ClassFile;
use kb_names::{ExactType, Name, NoMemory, Row, Target};
use kb_numbers::Numbers;
use kb_order::{Order, TextSet};
use kb_rows::Held;
use std::alloc::Global;
use std::marker::Model;

/// The given classes in the order given, and then the platform classes, with tables over them: no question searches a list
/// of classes, members or superclasses.
#[derive(Drop)]
pub struct Linked {
    classes: Classes,
    chains: Vec<Row<u32>>,
    supers: Vec<Row<bool>>,
    universe: Row<ExactType>,
    literals: TextSet,
    slots: Vec<Row<FieldSlot>>,
    places: Vec<MethodPlace>,
    // The members of the classes, and what their entries name, by numbers.
    numbers: Held<Numbers>,
    // Of each class whether it or a superclass of it declares an initialiser.
    initialised: Vec<bool>,
    // Of each method the place of the instruction at each offset of its code.
    placings: Vec<Row<Option<u32>>>,
}

impl Model for Linked {
    ghost use Rattle.std.specs.Prelude.{◌≡◌, map};
    ghost use Rattle.kb_classes.specs.World.{World as PlainWorld};

    ghost Value = { PlainWorld };

    ghost use Rattle.kb_link.specs.Links.{IsLinked};
    ghost use Rattle.kb_classes.specs.Slots.{slots_along};
    ghost use Rattle.kb_classes.specs.Initialisers.{has_initialiser};
    ghost use Rattle.kb_classes.specs.Methods.{HasPlaces};
    ghost use Rattle.kb_classes.specs.World.{methods_in};
    ghost use Rattle.kb_classes.specs.Placing.{ArePlacings};
    ghost use Rattle.kb_numbers.specs.Numbers.{AreNumbered};

    ghost view = { λ w. record { classes = w.classes; chains = w.chains.items; supers = w.supers.items; universe = w.universe; literals = w.literals } };

    ghost invariant = { λ w. IsLinked (record { classes = w.classes; chains = w.chains.items; supers = w.supers.items; universe = w.universe; literals = w.literals }) × (w.slots.items ≡ map (slots_along w.classes) w.chains.items) × HasPlaces w.classes w.places.items × AreNumbered w.classes w.numbers × (w.initialised.items ≡ map (has_initialiser w.classes) w.chains.items) × ArePlacings (methods_in w.classes) w.placings.items };
}

/// The world of these classes, which keep the rules that classes keep together.
pub(crate) fn linked_of(
    alloc: Global,
    classes: Classes,
    order: Order,
    chains: Vec<Row<u32>>,
    numbers: Held<Numbers>,
) -> Result<Linked, LinkRefusal>
    requires { (order ≡ direct_supers classes) × HaveDifferentNames classes × AreLoaded classes × HaveSupers classes × HaveNoCircle classes × HaveGoodSupers classes × AreChains classes chains.items × HaveNoSplit classes chains.items × AreNumbered classes numbers }
    ensures classes { IfOk result (λ world. world.classes ≡ classes) }
    ensures linked { IfOk result IsLinked }
    ensures refused { IfErr result (RefusesClasses classes) }
{
    match tables_of(alloc, classes, &order, chains, numbers) {
        Ok(world) => Ok(world),
        Err(_) => Err(LinkRefusal::NoMemory),
    }
}

fn tables_of(
    alloc: Global,
    classes: Classes,
    order: &Order,
    chains: Vec<Row<u32>>,
    numbers: Held<Numbers>,
) -> Result<Linked, NoMemory>
    requires { (order.now ≡ direct_supers classes) × HaveDifferentNames classes × AreLoaded classes × HaveSupers classes × HaveNoCircle classes × HaveGoodSupers classes × AreChains classes chains.items × HaveNoSplit classes chains.items × AreNumbered classes numbers }
    ensures classes { IfOk result (λ world. world.classes ≡ classes) }
    ensures linked { IfOk result IsLinked }
{
    let of_classes = class_tables(alloc, &classes, order, chains.as_slice())?;
    let of_methods = method_tables(alloc, &classes, chains.as_slice())?;
    let ClassTables {
        supers,
        universe,
        literals,
        slots,
    } = of_classes;
    let MethodTables {
        places,
        initialised,
        placings,
    } = of_methods;
    Ok(Linked {
        classes,
        chains,
        supers,
        universe,
        literals,
        slots,
        places,
        numbers,
        initialised,
        placings,
    })
}

// What is known of classes.
#[derive(Drop)]
pub(crate) struct ClassTables {
    supers: Vec<Row<bool>>,
    universe: Row<ExactType>,
    literals: TextSet,
    slots: Vec<Row<FieldSlot>>,
}

// What is known of these classes.
fn class_tables(
    alloc: Global,
    classes: &Classes,
    order: &Order,
    chains: &[Row<u32>],
) -> Result<ClassTables, NoMemory>
    requires { order.now ≡ direct_supers classes.now }
    ensures supers { IfOk result (λ tables. AreSupers classes.now tables.supers.items) }
    ensures universe { IfOk result (λ tables. IsUniverse classes.now tables.universe) }
    ensures literals { IfOk result (λ tables. AreLiterals classes.now tables.literals) }
    ensures slots { IfOk result (λ tables. tables.slots.items ≡ map (slots_along classes.now) chains.now) }
{
    let supers = supers_of(alloc, classes, order)?;
    let universe = universe_of(alloc, classes)?;
    let literals = literals_of(alloc, classes)?;
    let slots = slots_of(alloc, classes, chains)?;
    Ok(ClassTables {
        supers,
        universe,
        literals,
        slots,
    })
}

// What is known of methods, beside the numbers of their names and types.
#[derive(Drop)]
pub(crate) struct MethodTables {
    places: Vec<MethodPlace>,
    initialised: Vec<bool>,
    placings: Vec<Row<Option<u32>>>,
}

// What is known of the methods of these classes.
fn method_tables(
    alloc: Global,
    classes: &Classes,
    chains: &[Row<u32>],
) -> Result<MethodTables, NoMemory>
    requires { HaveOwnMethods classes.now }
    ensures places { IfOk result (λ tables. HasPlaces classes.now tables.places.items) }
    ensures initialised { IfOk result (λ tables. tables.initialised.items ≡ map (has_initialiser classes.now) chains.now) }
    ensures placings { IfOk result (λ tables. ArePlacings (methods_in classes.now) tables.placings.items) }
{
    let places = places_of(alloc, classes)?;
    let initialised = initialised_of(alloc, classes, chains)?;
    let placings = placings_of(alloc, classes, places.as_slice())?;
    Ok(MethodTables {
        places,
        initialised,
        placings,
    })
}

impl Linked {
    /// The class of that name.
    pub fn class_named(&self, name: &Name) -> Option<ClassId>
        ensures { option_map (λ (id : ClassId). id.0) result ≡ number_in self.now.classes name.now }
    {
        self.class_of_text(name.as_slice())
    }

    /// The class whose name has these bytes.
    pub fn class_of_text(&self, name: &[u8]) -> Option<ClassId>
        ensures { option_map (λ (id : ClassId). id.0) result ≡ number_in self.now.classes name.now }
    {
        let number = self.classes.number_of(name)?;
        Some(ClassId(number))
    }

    /// The name of these bytes: that of the class of the name, where there is one, shared with it.
    pub fn shared_name(&self, alloc: Global, name: &[u8]) -> Result<Name, NoMemory>
        ensures { IfOk result (λ told. told ≡ name.now) }
    {
        shared_name(alloc, &self.classes, name)
    }

    /// The name of a class.
    pub fn name_of(&self, class: ClassId) -> &Name
        requires { class.0 < length self.now.classes }
        ensures name { option_map (λ (c : Class). c.name) (slice_get self.now.classes class.0) ≡ Some result.now }
        ensures linked { IsLinked self.now }
    {
        self.classes.as_slice()[class.0 as usize].name()
    }

    /// The class file of a class: None exactly for a platform class.
    pub fn file_of(&self, class: ClassId) -> Option<&ClassFile>
        requires { class.0 < length self.now.classes }
        ensures { option_copied result ≡ option_and_then (λ (c : Class). c.file) (slice_get self.now.classes class.0) }
    {
        self.classes.as_slice()[class.0 as usize].file()
    }

    /// A method.
    pub fn method_of(&self, method: MethodId) -> &MethodInfo
        requires { method.0 < length (methods_in self.now.classes) }
        ensures there { method_at self.now method.0 ≡ Some result.now }
        ensures linked { IsLinked self.now }
    {
        let at = self.places[method.0 as usize];
        &self.classes.as_slice()[at.class as usize].methods()[at.place as usize]
    }

    /// The place, in the listing of a method's code, of the instruction at an offset. A look into a table, without a search.
    pub fn place_at(&self, method: MethodId, at: u32) -> Option<u32>
        requires { method.0 < length (methods_in self.now.classes) }
        ensures { result ≡ place_in (method_at self.now method.0) at }
    {
        let table = self.placings.get(method.0 as usize)?;
        placed_at(table.as_slice(), at)
    }

    /// The slots of the objects of a class, by their numbers.
    pub fn fields_of(&self, class: ClassId) -> &[FieldSlot]
        requires { class.0 < length self.now.classes }
        ensures { result.now ≡ slots_of self.now class.0 }
    {
        self.slots[class.0 as usize].as_slice()
    }

    /// The exact types that an object of an input may have.
    pub fn universe(&self) -> &[ExactType]
        ensures { result.now ≡ self.now.universe }
    {
        self.universe.as_slice()
    }

    /// How many string literals there are.
    pub fn literals(&self) -> u32
        ensures { result ≡ length self.now.literals }
    {
        self.literals.as_slice().len() as u32
    }

    /// The type of a Class entry of a class: None exactly where the entry is none.
    pub fn type_entry(&self, class: ClassId, entry: u16) -> Option<&ExactType>
        requires { class.0 < length self.now.classes }
        ensures { option_copied result ≡ type_entry_of self.now class.0 entry }
    {
        self.classes.as_slice()[class.0 as usize].type_entry(entry)
    }

    /// The int of an Integer entry of a class: None exactly where the entry is none.
    pub fn int_entry(&self, class: ClassId, entry: u16) -> Option<i32>
        requires { class.0 < length self.now.classes }
        ensures { result ≡ int_entry_of self.now class.0 entry }
    {
        self.classes.as_slice()[class.0 as usize].int_entry(entry)
    }

    /// Whether the class is initialised by code: it or a superclass of it declares a method named `<clinit>`.
    pub fn has_initialiser(&self, class: ClassId) -> bool
        requires { class.0 < length self.now.classes }
        ensures { result ≡ is_initialised self.now class.0 }
    {
        self.initialised[class.0 as usize]
    }

    /// Whether the first class or interface is the second one, or below it.
    pub fn is_below(&self, low: &[u8], high: &[u8]) -> bool
        ensures { result ≡ is_below self.now low.now high.now }
    {
        if low == high {
            return true;
        }
        let Some(below) = self.classes.number_of(low) else {
            return false;
        };
        let Some(above) = self.classes.number_of(high) else {
            return false;
        };
        is_super(self.supers.as_slice(), below, above)
    }

    /// The members of the classes, and what their entries name, by numbers.
    pub fn numbers(&self) -> &Numbers
        ensures { AreNumbered self.now.classes result.now }
    {
        self.numbers.get()
    }

    // The method that the target names.
    fn declared(&self, target: &Target) -> Option<MethodId>
        ensures found { IfSome result (λ id. Declares self.now id target.now) }
        ensures none { IfNone result ((id : MethodId) → Declares self.now id target.now → ⊥) }
        ensures alone { IfSome result (λ id. (other : MethodId) → Declares self.now other target.now → other ≡ id) }
    {
        let class = self.classes.number_of(target.class.as_slice())?;
        self.paired(class, target)
    }

    // The method that the class declares and that has the pair of the target's name and type, and so this name and this type.
    fn paired(&self, class: u32, target: &Target) -> Option<MethodId>
        ensures found { IfSome result (λ id. IsNumberOf self.now.classes class target.now.name target.now.kind id.0) }
        ensures whole { (id : ℕ) → IsNumberOf self.now.classes class target.now.name target.now.kind id → result ≡ Some (record { 0 = id }) }
    {
        let numbers = self.numbers.get();
        let pair = numbers.pair_of(&target.name, &target.kind)?;
        let number = numbers.method(class, pair)?;
        Some(MethodId(number))
    }

    /// The method that the target names, where it has code and its name does not begin with `<`.
    pub fn find_target(&self, target: &Target) -> Option<MethodId>
        ensures found { IfSome result (λ id. IsTargetOf self.now target.now id) }
        ensures none { IfNone result ((id : MethodId) → IsTargetOf self.now target.now id → ⊥) }
        ensures alone { IfSome result (λ id. (other : MethodId) → IsTargetOf self.now target.now other → other ≡ id) }
    {
        if is_special(target.name.as_slice()) {
            return None;
        }
        let id = self.declared(target)?;
        if self.method_of(id).code.is_none() {
            return None;
        }
        Some(id)
    }

    /// A class.
    pub fn class_of(&self, class: ClassId) -> &LoadedClass
        requires { class.0 < length self.now.classes }
        ensures there { slice_get self.now.classes class.0 ≡ Some result.now }
        ensures linked { IsLinked self.now }
    {
        &self.classes.as_slice()[class.0 as usize]
    }

    /// How many classes there are, those of the platform among them.
    pub fn class_count(&self) -> u32
        ensures { result ≡ length self.now.classes }
    {
        self.classes.as_slice().len() as u32
    }

    /// How many methods the classes have.
    pub fn method_count(&self) -> usize
        ensures { result ≡ length (methods_in self.now.classes) }
    {
        self.places.len()
    }

    /// The numbers of a class and of its superclasses, up to that of java/lang/Object.
    pub fn chain_of(&self, class: ClassId) -> &[u32]
        requires { class.0 < length self.now.classes }
        ensures { result.now ≡ chain_of self.now class.0 }
    {
        self.chains[class.0 as usize].as_slice()
    }

    /// Whether the first class is the second one, or a subtype of it: a look into a table.
    pub fn is_above(&self, low: ClassId, high: ClassId) -> bool
        ensures { result ≡ is_super self.now.supers low.0 high.0 }
    {
        is_super(self.supers.as_slice(), low.0, high.0)
    }

    /// The number of the literal of a String entry of a class: None exactly where the entry is none.
    pub fn literal_entry(&self, class: ClassId, entry: u16) -> Option<u32>
        ensures { result ≡ literal_entry_of self.now class.0 entry }
    {
        let class = self.classes.as_slice().get(class.0 as usize)?;
        place_in(&self.literals, class.text_entry(entry)?)
    }
}
