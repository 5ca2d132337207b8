//! What a superclass and an interface must be.
ghost use Rattle.std.specs.Prelude.{◌≡◌, ◌↔◌, ◌∷◌, [], map, IsTrue, OnOk, IfErr};
ghost use Rattle.kb_classes.specs.declared.refusal.LinkRefusal.TheVariants as refusals;
ghost use Rattle.kb_classes.specs.Subtypes.{parent_claim, interface_claim, claims_of};
ghost use Rattle.kb_classes.specs.Rules.{HaveDifferentNames, HaveSupers, HaveNoCircle, HaveGoodSupers, IsNoneSuch, IsBad, is_bad_for};
ghost use Rattle.kb_classes.specs.Refusals.{RefusesClasses, IsRefusalOf};
ghost use Rattle.kb_link.specs.Stops.{StopsAtBad};

use kb_class::LoadedClass;
use kb_classes::{ClaimKind, Classes, LinkRefusal, interface_at};
use kb_names::Name;
use std::alloc::Global;

/// ACC_INTERFACE and ACC_FINAL (JVMS 8 table 4.1-A).
const INTERFACE: u16 = 0x0200;

const FINAL_OR_INTERFACE: u16 = 0x0210;

/// Refuses the first superclass that is final or an interface, or interface that is none.
pub(crate) fn check_claims(alloc: Global, classes: &Classes) -> Result<(), LinkRefusal>
    requires { HaveDifferentNames classes.now × HaveSupers classes.now × HaveNoCircle classes.now }
    ensures good { OnOk result (HaveGoodSupers classes.now) }
    ensures refused { IfErr result (RefusesClasses classes.now) }
{
    for class in classes.as_slice() {
        check_class(alloc, classes, class)?;
    }
    Ok(())
}

// Refuses the first bad one of a class's superclass and interfaces.
fn check_class(alloc: Global, classes: &Classes, class: &LoadedClass) -> Result<(), LinkRefusal>
    ensures good { OnOk result (IsNoneSuch (IsBad classes.now) (claims_of class.now)) }
    ensures refused { IfErr result (StopsAtBad classes.now (claims_of class.now)) }
{
    check_parent(alloc, classes, class)?;
    check_interfaces(alloc, classes, class)
}

fn check_parent(alloc: Global, classes: &Classes, class: &LoadedClass) -> Result<(), LinkRefusal>
    ensures good { OnOk result (IsNoneSuch (IsBad classes.now) (parent_claim class.now.parent)) }
    ensures refused { IfErr result (StopsAtBad classes.now (parent_claim class.now.parent)) }
{
    match class.parent() {
        Some(parent) => check_claim(alloc, classes, ClaimKind::Parent, parent.as_slice()),
        None => Ok(()),
    }
}

fn check_interfaces(
    alloc: Global,
    classes: &Classes,
    class: &LoadedClass,
) -> Result<(), LinkRefusal>
    ensures good { OnOk result (IsNoneSuch (IsBad classes.now) (map interface_claim class.now.interfaces)) }
    ensures refused { IfErr result (StopsAtBad classes.now (map interface_claim class.now.interfaces)) }
{
    for place in 0..class.interface_count() {
        let name = interface_at(class, place);
        check_claim(alloc, classes, ClaimKind::Interface, name)?;
    }
    Ok(())
}

fn check_claim(
    alloc: Global,
    classes: &Classes,
    kind: ClaimKind,
    name: &[u8],
) -> Result<(), LinkRefusal>
    ensures good { OnOk result (IsNoneSuch (IsBad classes.now) (record { kind = kind; name = name.now } ∷ [])) }
    ensures refused { IfErr result (StopsAtBad classes.now (record { kind = kind; name = name.now } ∷ [])) }
{
    if is_bad(classes, kind, name) {
        return Err(bad(alloc, name));
    }
    Ok(())
}

// Whether the class of that name may not be named so.
fn is_bad(classes: &Classes, kind: ClaimKind, name: &[u8]) -> bool
    ensures { IsTrue result ↔ IsBad classes.now (record { kind = kind; name = name.now }) }
{
    let Some(number) = classes.number_of(name) else {
        return false;
    };
    match classes.as_slice().get(number as usize) {
        Some(class) => is_bad_for(kind, class),
        None => false,
    }
}

fn is_bad_for(kind: ClaimKind, class: &LoadedClass) -> bool
    ensures { result ≡ is_bad_for kind class.now }
{
    match kind {
        ClaimKind::Parent => class.access() & FINAL_OR_INTERFACE != 0,
        ClaimKind::Interface => class.access() & INTERFACE == 0,
    }
}

// The refusal of a bad superclass or interface.
fn bad(alloc: Global, name: &[u8]) -> LinkRefusal
    ensures { IsRefusalOf refusals.BadSuper name.now result }
{
    match Name::from_slice(alloc, name) {
        Ok(name) => LinkRefusal::BadSuper(name),
        Err(_) => LinkRefusal::NoMemory,
    }
}
