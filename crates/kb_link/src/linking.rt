//! From class files to the world of them, and why there is none.
ghost use Rattle.std.specs.Prelude.{◌≡◌, ◌≤◌, length, IfOk, IfErr};
ghost use Rattle.std.specs.List.{AllByRecursion};
ghost use Rattle.kb_class.specs.Given.{AreGiven};
ghost use Rattle.kb_numbers.specs.Numbers.{AreNumbered, HasTexts};
ghost use Rattle.kb_classes.specs.Rules.{HaveDifferentNames, HaveSupers, HaveNoCircle, HaveGoodSupers};
ghost use Rattle.kb_classes.specs.Subtypes.{direct_supers, AreChains};
ghost use Rattle.kb_classes.specs.Split.{HaveNoSplit};
ghost use Rattle.kb_link.specs.Links.{AreLoaded, KeepsFormat, Links, IsLinked, RefusesLink, most_classes};
ghost use Rattle.kb_classes.specs.Refusals.{RefusesClasses};

use crate::chains::chains_of;
use crate::circles::check_circles;
use crate::claims::check_claims;
use crate::direct::direct_supers;
use crate::linked::{Linked, linked_of};
use crate::loading::{check_formats, load_all};
use crate::packages::check_packages;
use kb_class::{GivenClass, LoadedClass};
use kb_classes::{Classes, LinkRefusal};
use kb_names::{NoMemory, Row};
use kb_numbers::{Numbers, numbers_of};
use kb_order::Order;
use kb_rows::Held;
use std::alloc::Global;

/// The most classes that are linked.
const MOST_CLASSES: usize = 64;

/// The world of these classes, in the order given, and of the platform classes.
///
/// The first rule that is broken is told: too many classes; then class by class those of a class file, a name before a
/// descriptor before a second member; then over all classes two of one name, a missing superclass or interface, a circle, a
/// bad superclass or interface, and a package that is split. Of several at one rule the first class's is told, of one class
/// the superclass's before the interfaces'.
pub fn link(alloc: Global, given: Vec<GivenClass>) -> Result<Linked, LinkRefusal>
    requires { AreGiven given.items }
    ensures linked { IfOk result (Links given.items) }
    ensures refused { IfErr result (RefusesLink given.items) }
{
    if given.len() > MOST_CLASSES {
        return Err(LinkRefusal::TooMany);
    }
    check_formats(alloc, given.as_slice())?;
    link_checked(alloc, given)
}

// The world of classes each of which keeps the rules of a class file.
fn link_checked(alloc: Global, given: Vec<GivenClass>) -> Result<Linked, LinkRefusal>
    requires { AreGiven given.items × AllByRecursion KeepsFormat given.items × (length given.items ≤ most_classes) }
    ensures linked { IfOk result (Links given.items) }
    ensures refused { IfErr result (RefusesLink given.items) }
{
    match load_all(alloc, given) {
        Ok(classes) => link_classes(alloc, classes),
        Err(_) => Err(LinkRefusal::NoMemory),
    }
}

// The world of these classes, whose numbers are their places.
fn link_classes(alloc: Global, classes: Vec<LoadedClass>) -> Result<Linked, LinkRefusal>
    requires { AreLoaded classes.items × AllByRecursion HasTexts classes.items }
    ensures classes { IfOk result (λ world. world.classes ≡ classes.items) }
    ensures linked { IfOk result IsLinked }
    ensures refused { IfErr result (RefusesClasses classes.items) }
{
    match numbers_in(alloc, classes.as_slice()) {
        Ok(numbers) => link_numbered(alloc, classes, numbers),
        Err(_) => Err(LinkRefusal::NoMemory),
    }
}

// The numbers of the members of these classes.
fn numbers_in(alloc: Global, classes: &[LoadedClass]) -> Result<Held<Numbers>, NoMemory>
    requires { AllByRecursion HasTexts classes.now }
    ensures { IfOk result (AreNumbered classes.now) }
{
    let numbers = numbers_of(alloc, classes)?;
    Held::new(alloc, numbers)
}

// The world of these classes, whose members have these numbers.
fn link_numbered(
    alloc: Global,
    classes: Vec<LoadedClass>,
    numbers: Held<Numbers>,
) -> Result<Linked, LinkRefusal>
    requires { AreLoaded classes.items × AreNumbered classes.items numbers }
    ensures classes { IfOk result (λ world. world.classes ≡ classes.items) }
    ensures linked { IfOk result IsLinked }
    ensures refused { IfErr result (RefusesClasses classes.items) }
{
    let classes = Classes::new(alloc, classes)?;
    let order = order_in(alloc, &classes)?;
    link_ordered(alloc, classes, order, numbers)
}

// What stands above each class, where superclasses and interfaces are what they must be.
fn order_in(alloc: Global, classes: &Classes) -> Result<Order, LinkRefusal>
    requires { HaveDifferentNames classes.now }
    ensures order { IfOk result (λ order. order ≡ direct_supers classes.now) }
    ensures there { IfOk result (λ order. HaveSupers classes.now × HaveNoCircle classes.now × HaveGoodSupers classes.now) }
    ensures refused { IfErr result (RefusesClasses classes.now) }
{
    let direct = direct_supers(alloc, classes)?;
    let order = check_circles(alloc, classes, direct)?;
    check_claims(alloc, classes)?;
    Ok(order)
}

// The world of these classes, whose superclasses and interfaces are what they must be.
fn link_ordered(
    alloc: Global,
    classes: Classes,
    order: Order,
    numbers: Held<Numbers>,
) -> Result<Linked, LinkRefusal>
    requires { (order ≡ direct_supers classes) × HaveDifferentNames classes × AreLoaded classes × HaveSupers classes × HaveNoCircle classes × HaveGoodSupers classes × AreNumbered classes numbers }
    ensures classes { IfOk result (λ world. world.classes ≡ classes) }
    ensures linked { IfOk result IsLinked }
    ensures refused { IfErr result (RefusesClasses classes) }
{
    let chains = whole_chains(alloc, &classes, &order, numbers.get())?;
    linked_of(alloc, classes, order, chains, numbers)
}

// The chains of these classes, where no package is split.
fn whole_chains(
    alloc: Global,
    classes: &Classes,
    order: &Order,
    numbers: &Numbers,
) -> Result<Vec<Row<u32>>, LinkRefusal>
    requires { (order.now ≡ direct_supers classes.now) × AreLoaded classes.now × HaveSupers classes.now × HaveNoCircle classes.now × HaveGoodSupers classes.now × AreNumbered classes.now numbers.now }
    ensures chains { IfOk result (λ chains. AreChains classes.now chains.items × HaveNoSplit classes.now chains.items) }
    ensures refused { IfErr result (RefusesClasses classes.now) }
{
    let chains = chains_of(alloc, classes, order)?;
    check_packages(alloc, classes, chains.as_slice(), numbers)?;
    Ok(chains)
}
