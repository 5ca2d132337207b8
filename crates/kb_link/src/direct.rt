//! The superclass and the interfaces of each class, by their numbers.
ghost use Rattle.std.specs.Prelude.{◌≡◌, ◌∷◌, [], ◌++◌, IfOk, IfErr};
ghost use Rattle.kb_classes.specs.declared.refusal.LinkRefusal.TheVariants as refusals;
ghost use Rattle.kb_classes.specs.Subtypes.{parent_names, super_names, numbers_of, direct_supers};
ghost use Rattle.kb_classes.specs.Rules.{IsNoneSuch, IsMissing, HaveDifferentNames, HaveSupers};
ghost use Rattle.kb_classes.specs.Refusals.{RefusesClasses, IsRefusalOf};
ghost use Rattle.kb_link.specs.Stops.{StopsAtMissing};

use kb_class::LoadedClass;
use kb_classes::{Classes, LinkRefusal, interface_at};
use kb_names::{Name, Row};
use std::alloc::Global;

/// For each class the numbers of its superclass and of its interfaces.
pub(crate) fn direct_supers(alloc: Global, classes: &Classes) -> Result<Vec<Row<u32>>, LinkRefusal>
    requires { HaveDifferentNames classes.now }
    ensures direct { IfOk result (λ direct. (direct.items ≡ direct_supers classes.now) × HaveSupers classes.now) }
    ensures refused { IfErr result (RefusesClasses classes.now) }
{
    let mut direct = Vec::new(alloc);
    for class in classes.as_slice() {
        let numbers = numbers_above(alloc, classes, class)?;
        let Ok(()) = direct.push(numbers) else {
            return Err(LinkRefusal::NoMemory);
        };
    }
    Ok(direct)
}

// The numbers of the superclass and of the interfaces of a class.
fn numbers_above(
    alloc: Global,
    classes: &Classes,
    class: &LoadedClass,
) -> Result<Row<u32>, LinkRefusal>
    ensures numbers { IfOk result (λ numbers. (numbers ≡ numbers_of classes.now (super_names class.now)) × IsNoneSuch (IsMissing classes.now) (super_names class.now)) }
    ensures refused { IfErr result (StopsAtMissing classes.now (super_names class.now)) }
{
    let numbers = parent_number(alloc, classes, class)?;
    with_interfaces(alloc, classes, class, numbers)
}

// The number of the superclass of a class, where it has one.
fn parent_number(
    alloc: Global,
    classes: &Classes,
    class: &LoadedClass,
) -> Result<Row<u32>, LinkRefusal>
    ensures numbers { IfOk result (λ numbers. (numbers ≡ numbers_of classes.now (parent_names class.now.parent)) × IsNoneSuch (IsMissing classes.now) (parent_names class.now.parent)) }
    ensures refused { IfErr result (StopsAtMissing classes.now (parent_names class.now.parent)) }
{
    match class.parent() {
        Some(parent) => with_number(alloc, classes, Row::new(alloc), parent.as_slice()),
        None => Ok(Row::new(alloc)),
    }
}

// These numbers with those of the interfaces of a class.
fn with_interfaces(
    alloc: Global,
    classes: &Classes,
    class: &LoadedClass,
    numbers: Row<u32>,
) -> Result<Row<u32>, LinkRefusal>
    ensures numbers { IfOk result (λ all. (all ≡ numbers ++ numbers_of classes.now class.now.interfaces) × IsNoneSuch (IsMissing classes.now) class.now.interfaces) }
    ensures refused { IfErr result (StopsAtMissing classes.now class.now.interfaces) }
{
    let mut numbers = numbers;
    for place in 0..class.interface_count() {
        let name = interface_at(class, place);
        numbers = with_number(alloc, classes, numbers, name)?;
    }
    Ok(numbers)
}

// These numbers with that of the class of the name.
fn with_number(
    alloc: Global,
    classes: &Classes,
    numbers: Row<u32>,
    name: &[u8],
) -> Result<Row<u32>, LinkRefusal>
    ensures one { IfOk result (λ more. (more ≡ numbers ++ numbers_of classes.now (name.now ∷ [])) × IsNoneSuch (IsMissing classes.now) (name.now ∷ [])) }
    ensures refused { IfErr result (StopsAtMissing classes.now (name.now ∷ [])) }
{
    let Some(number) = classes.number_of(name) else {
        return Err(missing(alloc, name));
    };
    match numbers.with(number) {
        Ok(more) => Ok(more),
        Err(_) => Err(LinkRefusal::NoMemory),
    }
}

// The refusal of a name that no class has.
fn missing(alloc: Global, name: &[u8]) -> LinkRefusal
    ensures { IsRefusalOf refusals.Missing name.now result }
{
    match Name::from_slice(alloc, name) {
        Ok(name) => LinkRefusal::Missing(name),
        Err(_) => LinkRefusal::NoMemory,
    }
}
