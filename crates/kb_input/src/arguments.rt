//! The arguments of a method, and the declared types of slots.
ghost use Rattle.std.specs.Prelude.{◌≡◌, [], ◌++◌, IfOk, OnOk};
ghost use Rattle.std.specs.Option.{option_copied};
ghost use Rattle.kb_class.specs.declared.ids.MethodId.{MethodId as PlainId};
ghost use Rattle.kb_semantics.specs.Inputs.{argument_types};
ghost use Rattle.kb_picture.specs.Queries.{slot_of_class, component_of, type_of_slot};
ghost use Rattle.kb_input.specs.Emitted.{arguments_of};

use crate::NoMemory;
use kb_class::{MethodId, MethodInfo, is_static};
use kb_names::{ExactType, JType, Name};
use kb_picture::{Origin, PicObject};
use kb_rows::Row;
use kb_world::World;
use std::alloc::Global;

/// The types of the method's arguments, a receiver's class before those of the parameters.
pub(crate) fn argument_types(
    alloc: Global,
    world: &World,
    target: MethodId,
) -> Result<Row<JType>, NoMemory>
    ensures { IfOk result (λ types. types ≡ arguments_of world.now target) }
{
    let Some(method) = world.find_method(target) else {
        return Ok(Row::new(alloc));
    };
    types_of(alloc, world, method)
}

fn types_of(alloc: Global, world: &World, method: &MethodInfo) -> Result<Row<JType>, NoMemory>
    ensures { IfOk result (λ types. types ≡ argument_types world.now method.now) }
{
    let params = method.kind.params.as_slice();
    let mut types = Row::new(alloc);
    if is_static(method.access) {
        push_copies(alloc, params, &mut types)?;
        return Ok(types);
    }
    let class = Name::from_slice(alloc, world.find_name(method.class))?;
    types.push(JType::Class(class))?;
    push_copies(alloc, params, &mut types)?;
    Ok(types)
}

fn push_copies(alloc: Global, params: &[JType], types: &mut Row<JType>) -> Result<(), NoMemory>
    ensures { OnOk result (types.new ≡ types.old ++ params.now) }
{
    let mut rest = params;
    while let [first, others @ ..] = rest {
        types.push(first.copied(alloc)?)?;
        rest = others;
    }
    Ok(())
}

/// The declared type of a slot, where the method's arguments have these types.
#[tactic(auto, using(crate::proofs::ArgumentLaws::argument_at))]
pub(crate) fn type_of_slot<'a>(
    world: &'a World,
    types: &'a [JType],
    objects: &'a [PicObject],
    slot: Origin,
) -> Option<&'a JType>
    ensures { (id : PlainId) → types.now ≡ arguments_of world.now id → option_copied result ≡ type_of_slot world.now id objects.now slot }
{
    match slot {
        Origin::Arg(number) => types.get(number as usize),
        Origin::Field(object, slot) => {
            let object = objects.get(object as usize)?;
            slot_of_class(world, slot, &object.kind)
        }
        Origin::Element(array, _) => {
            let array = objects.get(array as usize)?;
            component_of(&array.kind)
        }
    }
}

// The type of that slot of an object of the exact type, where it is one of a class.
fn slot_of_class<'a>(world: &'a World, slot: u32, kind: &ExactType) -> Option<&'a JType>
    ensures { option_copied result ≡ slot_of_class world.now slot kind.now }
{
    let ExactType::Class(name) = kind else {
        return None;
    };
    let field = world.slots_named(name).get(slot as usize)?;
    Some(&field.kind)
}

// The component of an array.
fn component_of(kind: &ExactType) -> Option<&JType>
    ensures { option_copied result ≡ component_of kind.now }
{
    match kind {
        ExactType::Array(component) => Some(component),
        ExactType::Class(_) => None,
    }
}
