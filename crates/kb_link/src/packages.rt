//! Methods that can be selected inside their package alone.
ghost use Rattle.std.specs.Prelude.{◌≡◌, ◌↔◌, ◌⊎◌, filter, IsTrue, IfOk, OnOk, IfErr, IfSome, IfNone};
ghost use Rattle.std.specs.List.{AllZip, list_any};
ghost use Rattle.kb_numbers.specs.Numbers.{AreNumbered, IsMethodPair};
ghost use Rattle.kb_classes.specs.Subtypes.{AreChains};
ghost use Rattle.kb_classes.specs.Rules.{IsFirst, IsNoneSuch, HaveOwnMethods, HaveSupers, HaveNoCircle, HaveGoodSupers};
ghost use Rattle.kb_classes.specs.Split.{package_of, is_of_package, HaveNoSplit};
ghost use Rattle.kb_link.specs.Sharing.{is_elsewhere, elsewhere_above, shares_at, shares_in, IsShared, StopsAtShared};
ghost use Rattle.kb_classes.specs.declared.refusal.LinkRefusal.TheVariants as refusals;
ghost use Rattle.kb_classes.specs.Refusals.{RefusesClasses};

use kb_class::{LoadedClass, MethodInfo};
use kb_classes::{Classes, LinkRefusal, is_special, item_at};
use kb_names::{Name, NoMemory, Row};
use kb_numbers::{Numbers, Pair};
use std::alloc::Global;

/// ACC_PUBLIC, ACC_PRIVATE, ACC_PROTECTED and ACC_STATIC (JVMS 8 table 4.6-A).
const NOT_OF_PACKAGE: u16 = 0x000f;

/// Refuses the first method of a package that a superclass in another package declares too, inside that package.
pub(crate) fn check_packages(
    alloc: Global,
    classes: &Classes,
    chains: &[Row<u32>],
    numbers: &Numbers,
) -> Result<(), LinkRefusal>
    requires { HaveOwnMethods classes.now × HaveSupers classes.now × HaveNoCircle classes.now × HaveGoodSupers classes.now × AreChains classes.now chains.now × AreNumbered classes.now numbers.now }
    ensures whole { OnOk result (HaveNoSplit classes.now chains.now) }
    ensures refused { IfErr result (RefusesClasses classes.now) }
{
    for (number, class) in classes.as_slice().iter().enumerate() {
        let chain = chains[number].as_slice();
        let pairs = numbers.methods_at(number as u32);
        match check_class(alloc, classes, numbers, chain, class, pairs) {
            Ok(()) => {}
            Err(refusal) => return Err(refusal),
        }
    }
    Ok(())
}

// Refuses the first such method of a class, whose methods have these pairs.
fn check_class(
    alloc: Global,
    classes: &Classes,
    numbers: &Numbers,
    chain: &[u32],
    class: &LoadedClass,
    pairs: &[Pair],
) -> Result<(), LinkRefusal>
    requires { HaveOwnMethods classes.now × AreNumbered classes.now numbers.now × AllZip (IsMethodPair numbers.now.texts) class.now.methods pairs.now }
    ensures whole { OnOk result (IsNoneSuch (IsShared classes.now (elsewhere_above classes.now class.now.name chain.now)) class.now.methods) }
    ensures refused { IfErr result (StopsAtShared classes.now class.now chain.now) }
{
    let Ok(above) = elsewhere_above(alloc, classes.as_slice(), class.name(), chain) else {
        return Err(LinkRefusal::NoMemory);
    };
    match first_shared(classes, numbers, above.as_slice(), class.methods(), pairs) {
        Some(method) => Err(split_refusal(alloc, class.name(), &method.name)),
        None => Ok(()),
    }
}

fn split_refusal(alloc: Global, class: &Name, method: &Name) -> LinkRefusal
    ensures { (result ≡ refusals.NoMemory) ⊎ (result ≡ refusals.SplitPackage class.now method.now) }
{
    match (class.copied(alloc), method.copied(alloc)) {
        (Ok(class), Ok(method)) => LinkRefusal::SplitPackage(class, method),
        _ => LinkRefusal::NoMemory,
    }
}

// The numbers of the superclasses on a chain that stand in another package than the class of that name.
fn elsewhere_above(
    alloc: Global,
    classes: &[LoadedClass],
    name: &Name,
    chain: &[u32],
) -> Result<Row<u32>, NoMemory>
    ensures { IfOk result (λ numbers. numbers ≡ elsewhere_above classes.now name.now chain.now) }
{
    match chain {
        [_, above @ ..] => elsewhere_among(alloc, classes, name, above),
        [] => Ok(Row::new(alloc)),
    }
}

fn elsewhere_among(
    alloc: Global,
    classes: &[LoadedClass],
    name: &Name,
    numbers: &[u32],
) -> Result<Row<u32>, NoMemory>
    ensures { IfOk result (λ row. row ≡ filter (is_elsewhere classes.now name.now) numbers.now) }
{
    let mut row = Row::new(alloc);
    let mut rest = numbers;
    while let [number, others @ ..] = rest {
        if is_elsewhere(classes, name, *number) {
            row.push(*number)?;
        }
        rest = others;
    }
    Ok(row)
}

// Whether the class of that number stands in another package than the class of that name.
fn is_elsewhere(classes: &[LoadedClass], name: &Name, number: u32) -> bool
    ensures { result ≡ is_elsewhere classes.now name.now number }
{
    match item_at(classes, number) {
        Some(class) => package_of(class.name().as_slice()) != package_of(name.as_slice()),
        None => false,
    }
}

// The package of the class of that name: up to the last slash.
fn package_of(name: &[u8]) -> &[u8]
    ensures { result.now ≡ package_of name.now }
{
    for back in 0..name.len() {
        let last = name.len() - 1 - back;
        if name[last] == b'/' {
            return &name[..last + 1];
        }
    }
    &name[..0]
}

// The first of these methods that is one of its package, and that one of these classes declares too.
fn first_shared<'a>(
    classes: &Classes,
    numbers: &Numbers,
    above: &[u32],
    methods: &'a [MethodInfo],
    pairs: &[Pair],
) -> Option<&'a MethodInfo>
    requires { HaveOwnMethods classes.now × AreNumbered classes.now numbers.now × AllZip (IsMethodPair numbers.now.texts) methods.now pairs.now }
    ensures found { IfSome result (λ method. IsFirst (IsShared classes.now above.now) methods.now method.now) }
    ensures none { IfNone result (IsNoneSuch (IsShared classes.now above.now) methods.now) }
{
    for (place, method) in methods.iter().enumerate() {
        if is_shared(classes, numbers, above, method, pairs[place]) {
            return Some(method);
        }
    }
    None
}

// Whether the method, which has that pair, is one of its package, and one of these classes declares it too.
fn is_shared(
    classes: &Classes,
    numbers: &Numbers,
    above: &[u32],
    method: &MethodInfo,
    pair: Pair,
) -> bool
    requires { HaveOwnMethods classes.now × AreNumbered classes.now numbers.now × IsMethodPair numbers.now.texts method.now pair }
    ensures { IsTrue result ↔ IsShared classes.now above.now method.now }
{
    if !is_of_package(method) {
        return false;
    }
    shares_above(classes, numbers, above, pair)
}

// Whether the method is one of its package.
fn is_of_package(method: &MethodInfo) -> bool
    ensures { result ≡ is_of_package method.now }
{
    if method.access & NOT_OF_PACKAGE != 0 {
        return false;
    }
    !is_special(method.name.as_slice())
}

// Whether one of these classes declares a method of that pair too, as one of its package.
fn shares_above(classes: &Classes, numbers: &Numbers, above: &[u32], pair: Pair) -> bool
    ensures { result ≡ list_any (shares_in classes.now numbers.now.classes.items pair) above.now }
{
    let mut rest = above;
    while let [number, others @ ..] = rest {
        if shares_in(classes, numbers, pair, *number) {
            return true;
        }
        rest = others;
    }
    false
}

// Whether the class of that number declares a method of that pair too, as one of its package.
fn shares_in(classes: &Classes, numbers: &Numbers, pair: Pair, number: u32) -> bool
    ensures { result ≡ shares_in classes.now numbers.now.classes.items pair number }
{
    match item_at(classes.as_slice(), number) {
        Some(class) => shares_at(class.methods(), numbers.method_place(number, pair)),
        None => false,
    }
}

// Whether the method at that place, if there is one, is one of its package.
fn shares_at(methods: &[MethodInfo], place: Option<u32>) -> bool
    ensures { result ≡ shares_at methods.now place }
{
    let Some(place) = place else {
        return false;
    };
    match item_at(methods, place) {
        Some(method) => is_of_package(method),
        None => false,
    }
}
