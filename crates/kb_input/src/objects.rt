//! The objects of an input in which nothing was read.
ghost use Rattle.std.specs.Prelude.{◌≡◌, [], ◌∷◌, ◌++◌, map, option_and_then, IfOk, OnOk};
ghost use Rattle.std.specs.Option.{option_copied};
ghost use Rattle.kb_input.specs.Emitted.{arguments_of, count_of, first_fitting, has_own, is_apart_at, own_kind, own_objects, unread_object, unread_objects, unread_of};
ghost use Rattle.kb_input.specs.Fitting.{AreFitting};

use crate::NoMemory;
use crate::arguments::type_of_slot;
use crate::fitting::{Fitting, first_kept};
use kb_class::MethodId;
use kb_heap::{Object, Value};
use kb_lookups::{default_of, default_values};
use kb_names::{ExactType, JType};
use kb_picture::{Length, Origin, PicLoc, PicObject, Picture, Seen, Standing};
use kb_rows::Row;
use kb_world::World;
use std::alloc::Global;

/// The objects of the picture, by their numbers, and behind them one for each slot that holds an object of its own, in the
/// order of reading. The arguments have these types.
pub(crate) fn unread_objects(
    alloc: Global,
    world: &World,
    target: MethodId,
    types: &[JType],
    picture: &Picture,
) -> Result<Row<Object>, NoMemory>
    requires { types.now ≡ arguments_of world.now target }
    ensures { IfOk result (λ objects. objects ≡ unread_objects world.now target picture.now) }
{
    let mut objects = Row::new(alloc);
    push_unread(alloc, world, picture.objects.as_slice(), &mut objects)?;
    push_own(alloc, world, target, types, picture, &mut objects)?;
    Ok(objects)
}

// ---- those of the picture

fn push_unread(
    alloc: Global,
    world: &World,
    of: &[PicObject],
    objects: &mut Row<Object>,
) -> Result<(), NoMemory>
    ensures { OnOk result (objects.new ≡ objects.old ++ map (unread_of world.now) of.now) }
{
    let mut rest = of;
    while let [first, others @ ..] = rest {
        let object = unread_of(alloc, world, first)?;
        objects.push(object)?;
        rest = others;
    }
    Ok(())
}

fn unread_of(alloc: Global, world: &World, of: &PicObject) -> Result<Object, NoMemory>
    ensures { IfOk result (λ object. object ≡ unread_of world.now of.now) }
{
    let count = count_of(of.length)?;
    let kind = of.kind.copied(alloc)?;
    unread_object(alloc, world, kind, count)
}

// How many elements an array of the picture has.
fn count_of(len: Length) -> Result<u32, NoMemory>
    ensures { IfOk result (λ count. count ≡ count_of len) }
{
    match len {
        Length::Plain => Ok(0),
        Length::Is(count) => Ok(count),
        Length::Above(count) => match count.checked_add(1) {
            Some(more) => Ok(more),
            None => Err(NoMemory),
        },
    }
}

// An object of the exact type, of an array with so many elements, in which nothing was read.
fn unread_object(
    alloc: Global,
    world: &World,
    kind: ExactType,
    count: u32,
) -> Result<Object, NoMemory>
    ensures { IfOk result (λ object. object ≡ unread_object world.now kind count) }
{
    let values = unread_values(alloc, world, &kind, count)?;
    Ok(Object { kind, values })
}

fn unread_values(
    alloc: Global,
    world: &World,
    kind: &ExactType,
    count: u32,
) -> Result<Row<Value>, NoMemory>
    ensures { IfOk result (λ values. values ≡ (unread_object world.now kind.now count).values) }
{
    match kind {
        ExactType::Class(name) => default_values(alloc, world.slots_named(name)),
        ExactType::Array(component) => {
            let values = vec![in alloc; default_of(component); count as usize]?;
            Ok(Row::from_vec(values))
        }
    }
}

// ---- those that stand for themselves

// One for each slot of the picture that holds an object of its own.
fn push_own(
    alloc: Global,
    world: &World,
    target: MethodId,
    types: &[JType],
    picture: &Picture,
    objects: &mut Row<Object>,
) -> Result<(), NoMemory>
    requires { types.now ≡ arguments_of world.now target }
    ensures { OnOk result (objects.new ≡ objects.old ++ own_objects world.now target picture.now picture.now.seen) }
{
    let mut known = Row::new(alloc);
    let mut rest = picture.seen.as_slice();
    while let [slot, others @ ..] = rest {
        push_if_own(
            alloc, world, target, types, picture, *slot, &mut known, objects,
        )?;
        rest = others;
    }
    Ok(())
}

// One for the slot, where it holds an object of its own.
fn push_if_own(
    alloc: Global,
    world: &World,
    target: MethodId,
    types: &[JType],
    picture: &Picture,
    slot: (Origin, Seen),
    known: &mut Row<Fitting>,
    objects: &mut Row<Object>,
) -> Result<(), NoMemory>
    requires types { types.now ≡ arguments_of world.now target }
    requires known { AreFitting world.now known.old }
    ensures objects { OnOk result (objects.new ≡ objects.old ++ own_objects world.now target picture.now (slot ∷ [])) }
    ensures known { AreFitting world.now known.new }
{
    if !has_own(picture, slot.1) {
        return Ok(());
    }
    let of = type_of_slot(world, types, picture.objects.as_slice(), slot.0);
    let kind = own_kind(alloc, world, known, of)?;
    let object = unread_object(alloc, world, kind, 0)?;
    objects.push(object)?;
    Ok(())
}

/// Whether a slot that is seen so holds an object that is none of the picture's: a location's that is open or beyond, or one
/// that is beyond.
pub(crate) fn has_own(picture: &Picture, seen: Seen) -> bool
    ensures { result ≡ has_own picture.now seen }
{
    match seen {
        Seen::Loc(number) => is_apart_at(picture.locs.as_slice(), number),
        Seen::Beyond => true,
        Seen::Int(_) | Seen::Null | Seen::Obj(_) => false,
    }
}

// Whether the location of that number is none of the picture's objects.
fn is_apart_at(locs: &[PicLoc], number: u32) -> bool
    ensures { result ≡ is_apart_at locs.now number }
{
    let Some(loc) = locs.get(number as usize) else {
        return false;
    };
    match loc.standing {
        Standing::Open | Standing::Beyond => true,
        Standing::Obj(_) => false,
    }
}

// The first exact type that fits the declared type.
fn own_kind(
    alloc: Global,
    world: &World,
    known: &mut Row<Fitting>,
    of: Option<&JType>,
) -> Result<ExactType, NoMemory>
    requires { AreFitting world.now known.old }
    ensures kind { IfOk result (λ kind. kind ≡ own_kind (option_and_then (first_fitting world.now) (option_copied of.entry))) }
    ensures known { AreFitting world.now known.new }
{
    let Some(kind) = of else {
        return Ok(ExactType::Array(JType::Int));
    };
    match first_kept(alloc, world, known, kind)? {
        Some(first) => Ok(first),
        None => Ok(ExactType::Array(JType::Int)),
    }
}
