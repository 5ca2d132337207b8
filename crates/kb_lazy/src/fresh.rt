//! New objects as alternatives.
ghost use Rattle.std.specs.Prelude.{◌≡◌, [], ◌∷◌, ◌++◌, filter, OnOk};
ghost use Rattle.std.specs.List.{flat_map};
ghost use Rattle.kb_classes.specs.Subtypes.{fits};
ghost use Rattle.kb_names.specs.declared.types.ExactType.TheVariants as exact;
ghost use Rattle.kb_picture.specs.declared.choice.Choice.TheVariants as chosen;
ghost use Rattle.kb_lazy.specs.Choices.{all_new, beyond_where, fresh_objects, has_fitting, new_arrays, new_objects};

use crate::NoMemory;
use crate::depths::is_deeper;
use kb_names::{ExactType, JType};
use kb_picture::{Choice, Length, Origin, Picture};
use kb_rows::Row;
use kb_semantics::World;
use std::alloc::Global;

/// Adds what may be found in a slot for the first time: the new objects of the type, or one that is beyond in place of them all
/// where a new object would lie deeper than `k` objects; arrays with up to `array` elements, and longer.
#[tactic(auto, unfolding(crate::specs::Choices::fresh_objects))]
pub(crate) fn push_fresh(
    alloc: Global,
    world: &World,
    picture: &Picture,
    origin: Origin,
    kind: &JType,
    k: u32,
    array: u32,
    choices: &mut Row<Choice>,
) -> Result<(), NoMemory>
    ensures { OnOk result (choices.new ≡ choices.old ++ fresh_objects world.now picture.now origin kind.now k array) }
{
    if is_deeper(picture, origin, k) {
        return push_beyond(world, kind, choices);
    }
    push_new(alloc, world, kind, array, choices)
}

// The one alternative in place of all new objects, where some exact type fits.
fn push_beyond(world: &World, kind: &JType, choices: &mut Row<Choice>) -> Result<(), NoMemory>
    ensures { OnOk result (choices.new ≡ choices.old ++ beyond_where (has_fitting world.now kind.now)) }
{
    if !has_fitting(world, kind) {
        return Ok(());
    }
    choices.push(Choice::Beyond)?;
    Ok(())
}

/// Whether some exact type of the universe fits.
pub(crate) fn has_fitting(world: &World, kind: &JType) -> bool
    ensures { result ≡ has_fitting world.now kind.now }
{
    let mut rest = world.universe();
    while let [first, others @ ..] = rest {
        if world.subtype(first, kind) {
            return true;
        }
        rest = others;
    }
    false
}

// The new objects of each exact type of the universe that fits.
fn push_new(
    alloc: Global,
    world: &World,
    kind: &JType,
    array: u32,
    choices: &mut Row<Choice>,
) -> Result<(), NoMemory>
    ensures { OnOk result (choices.new ≡ choices.old ++ all_new world.now kind.now array) }
{
    let mut rest = world.universe();
    while let [first, others @ ..] = rest {
        push_if_fitting(alloc, world, first, kind, array, choices)?;
        rest = others;
    }
    Ok(())
}

// Those of the exact type, where it fits.
fn push_if_fitting(
    alloc: Global,
    world: &World,
    of: &ExactType,
    kind: &JType,
    array: u32,
    choices: &mut Row<Choice>,
) -> Result<(), NoMemory>
    ensures { OnOk result (choices.new ≡ choices.old ++ flat_map (new_objects array) (filter (λ exact. fits world.now exact kind.now) (of.now ∷ []))) }
{
    if !world.subtype(of, kind) {
        return Ok(());
    }
    push_of(alloc, of, array, choices)
}

// Those of the exact type: one of a class, and of an array one for each length.
fn push_of(
    alloc: Global,
    of: &ExactType,
    array: u32,
    choices: &mut Row<Choice>,
) -> Result<(), NoMemory>
    ensures { OnOk result (choices.new ≡ choices.old ++ new_objects array of.now) }
{
    match of {
        ExactType::Class(_) => {
            let kind = of.copied(alloc)?;
            choices.push(Choice::Fresh(kind, Length::Plain))?;
            Ok(())
        }
        ExactType::Array(component) => push_arrays(alloc, component, array, choices),
    }
}

// An array of each length up to the bound, and one that is longer.
fn push_arrays(
    alloc: Global,
    component: &JType,
    array: u32,
    choices: &mut Row<Choice>,
) -> Result<(), NoMemory>
    ensures { OnOk result (choices.new ≡ choices.old ++ new_arrays array component.now) }
{
    for count in 0..array {
        push_array(alloc, component, Length::Is(count), choices)?;
    }
    push_array(alloc, component, Length::Is(array), choices)?;
    push_array(alloc, component, Length::Above(array), choices)
}

fn push_array(
    alloc: Global,
    component: &JType,
    len: Length,
    choices: &mut Row<Choice>,
) -> Result<(), NoMemory>
    ensures { OnOk result (choices.new ≡ choices.old ++ chosen.Fresh (exact.Array component.now) len ∷ []) }
{
    let kind = ExactType::Array(component.copied(alloc)?);
    choices.push(Choice::Fresh(kind, len))?;
    Ok(())
}
