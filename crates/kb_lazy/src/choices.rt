//! The alternatives for a reference that is read, and for a location that is looked into.
ghost use Rattle.std.specs.Prelude.{◌≡◌, [], ◌∷◌, ◌++◌, IfOk, OnOk};
ghost use Rattle.kb_picture.specs.declared.choice.Init.TheVariants as modes;
ghost use Rattle.kb_lazy.specs.Choices.{aliases, aliases_from, has_fitting, location_where, null_unless, objects_for, read_choices_of, resolve_choices_of};

use crate::NoMemory;
use crate::fresh::{has_fitting, push_fresh};
use kb_names::JType;
use kb_picture::{Choice, Init, Origin, PicObject, Picture};
use kb_rows::Row;
use kb_semantics::World;
use std::alloc::Global;

/// The alternatives for a slot of the picture, of the declared type `kind`, that is read for the first time, in their order.
///
/// Under lazy initialisation they are null, but not for a receiver; the objects of the picture that are of the type, by their
/// numbers; and the new objects of the type in the order of the universe, of an array one for each length from 0 to `array` and
/// one that is longer. Where a new object would lie deeper than `k` objects, the one that an argument holds being the first,
/// one alternative stands in place of all new objects. Under lazier initialisation they are null, but not for a receiver, and
/// some object. Where no exact type of the universe fits, none is a new object, one beyond or some object.
///
/// It takes time in proportion to the objects of the picture, the universe and the list that it gives.
///
/// Source: Khurshid, Păsăreanu and Visser (TACAS 2003); Deng, Lee and Robby (ASE 2006).
pub fn read_choices(
    alloc: Global,
    world: &World,
    picture: &Picture,
    slot: Origin,
    kind: &JType,
    receiver: bool,
    init: Init,
    k: u32,
    array: u32,
) -> Result<Vec<Choice>, NoMemory>
    ensures { IfOk result (λ choices. choices.items ≡ read_choices_of init world.now picture.now slot kind.now receiver k array) }
{
    match init {
        Init::Lazy => lazy_choices(alloc, world, picture, slot, kind, receiver, k, array),
        Init::Lazier => lazier_choices(alloc, world, picture, slot, kind, receiver, k, array),
    }
}

/// The alternatives for an open location of the picture, where the slot from which it was read has the declared type `kind`, in
/// their order: the objects of the picture that are of the type, and new ones, as for a slot that is read under lazy
/// initialisation. How deep a new object would lie is told by that slot, whatever the code read to come to it. Of a location
/// that is not there, there are none.
///
/// It takes time in proportion to the objects of the picture, the universe and the list that it gives.
///
/// Source: Deng, Lee and Robby (ASE 2006).
#[tactic(auto, unfolding(crate::specs::Choices::resolve_choices_of))]
pub fn resolve_choices(
    alloc: Global,
    world: &World,
    picture: &Picture,
    loc: u32,
    kind: &JType,
    k: u32,
    array: u32,
) -> Result<Vec<Choice>, NoMemory>
    ensures { IfOk result (λ choices. choices.items ≡ resolve_choices_of world.now picture.now loc kind.now k array) }
{
    let Some(location) = picture.locs.as_slice().get(loc as usize) else {
        return Ok(Vec::new(alloc));
    };
    let mut choices = Row::new(alloc);
    push_objects(
        alloc,
        world,
        picture,
        location.origin,
        kind,
        k,
        array,
        &mut choices,
    )?;
    Ok(choices.into_vec())
}

// Null, the objects that were met, and new ones.
#[tactic(auto, unfolding(crate::specs::Choices::read_choices_of))]
fn lazy_choices(
    alloc: Global,
    world: &World,
    picture: &Picture,
    slot: Origin,
    kind: &JType,
    receiver: bool,
    k: u32,
    array: u32,
) -> Result<Vec<Choice>, NoMemory>
    ensures { IfOk result (λ choices. choices.items ≡ read_choices_of modes.Lazy world.now picture.now slot kind.now receiver k array) }
{
    let mut choices = Row::new(alloc);
    push_null(receiver, &mut choices)?;
    push_objects(alloc, world, picture, slot, kind, k, array, &mut choices)?;
    Ok(choices.into_vec())
}

// Null, and some object.
#[tactic(auto, unfolding(crate::specs::Choices::read_choices_of))]
fn lazier_choices(
    alloc: Global,
    world: &World,
    picture: &Picture,
    slot: Origin,
    kind: &JType,
    receiver: bool,
    k: u32,
    array: u32,
) -> Result<Vec<Choice>, NoMemory>
    ensures { IfOk result (λ choices. choices.items ≡ read_choices_of modes.Lazier world.now picture.now slot kind.now receiver k array) }
{
    let mut choices = Row::new(alloc);
    push_null(receiver, &mut choices)?;
    push_location(world, kind, &mut choices)?;
    Ok(choices.into_vec())
}

// Null, but not for a receiver.
fn push_null(receiver: bool, choices: &mut Row<Choice>) -> Result<(), NoMemory>
    ensures { OnOk result (choices.new ≡ choices.old ++ null_unless receiver) }
{
    if receiver {
        return Ok(());
    }
    choices.push(Choice::Null)?;
    Ok(())
}

// The objects that a reference in the slot can be: those that were met, and what is found there for the first time.
fn push_objects(
    alloc: Global,
    world: &World,
    picture: &Picture,
    origin: Origin,
    kind: &JType,
    k: u32,
    array: u32,
    choices: &mut Row<Choice>,
) -> Result<(), NoMemory>
    ensures { OnOk result (choices.new ≡ choices.old ++ objects_for world.now picture.now origin kind.now k array) }
{
    push_aliases(world, picture, kind, choices)?;
    push_fresh(alloc, world, picture, origin, kind, k, array, choices)
}

// The objects of the picture that are of the type, by their numbers.
#[tactic(auto, unfolding(crate::specs::Choices::aliases))]
fn push_aliases(
    world: &World,
    picture: &Picture,
    kind: &JType,
    choices: &mut Row<Choice>,
) -> Result<(), NoMemory>
    ensures { OnOk result (choices.new ≡ choices.old ++ aliases world.now picture.now kind.now) }
{
    let mut number = 0;
    let mut rest = picture.objects.as_slice();
    while let [object, others @ ..] = rest {
        push_if_alias(world, object, number, kind, choices)?;
        let Some(next) = number.checked_add(1) else {
            return Err(NoMemory);
        };
        number = next;
        rest = others;
    }
    Ok(())
}

// The object of that number, where it is of the type.
fn push_if_alias(
    world: &World,
    object: &PicObject,
    number: u32,
    kind: &JType,
    choices: &mut Row<Choice>,
) -> Result<(), NoMemory>
    ensures { OnOk result (choices.new ≡ choices.old ++ aliases_from world.now kind.now number (object.now ∷ [])) }
{
    if !world.subtype(&object.kind, kind) {
        return Ok(());
    }
    choices.push(Choice::Alias(number))?;
    Ok(())
}

// Some object, where there can be one of the type.
fn push_location(world: &World, kind: &JType, choices: &mut Row<Choice>) -> Result<(), NoMemory>
    ensures { OnOk result (choices.new ≡ choices.old ++ location_where (has_fitting world.now kind.now)) }
{
    if !has_fitting(world, kind) {
        return Ok(());
    }
    choices.push(Choice::Location)?;
    Ok(())
}
