//! What a world answers.

ghost use Rattle.std.specs.Prelude.{◌<◌, length, IfSome};
ghost use Rattle.kb_classes.specs.World.{methods_in};

use crate::texts::{
    add, add_number, add_origin, add_whether, read_entry, write_exact, write_kind, write_none,
    write_text, write_type_entry,
};
use kb_class::{ClassId, MethodId};
use kb_names::{ExactType, Name, Target, read_target, read_type};
use kb_table::{RowResult, RowStop, read_number};
use kb_world::{FieldSlot, LinkRefusal, What, World};
use std::alloc::Global;

/// Writes the answer to a question, which is the first of the three words, about the other two.
pub fn write_answer(
    alloc: Global,
    world: &World,
    words: (&str, &str, &str),
    text: &mut Vec<u8>,
) -> RowResult<()> {
    let (question, first, second) = words;
    match question {
        "subtype" => write_told(is_subtype(alloc, world, first, second), text),
        "universe" => write_universe(world, text),
        "literals" => write_number(alloc, world.literals(), text),
        "class" => write_class(alloc, world, first, text),
        "slots" => write_slots(alloc, world, first, text),
        "entry" => write_entry(alloc, world, first, second, text),
        "method" => write_method(alloc, world, first, text),
        "place" => write_place(alloc, world, first, second, text),
        "reach" => write_reach(alloc, world, first, text),
        "within" => write_told(is_within(alloc, world, first), text),
        _ => Err(RowStop::Malformed),
    }
}

/// Writes whether it is so, where the words of the question are types.
fn write_told(told: Option<bool>, text: &mut Vec<u8>) -> RowResult<()> {
    match told {
        Some(holds) => add_whether(holds, text),
        None => Err(RowStop::Malformed),
    }
}

/// Whether an object of the first type, which is exact, is of the second one.
fn is_subtype(alloc: Global, world: &World, low: &str, high: &str) -> Option<bool> {
    let low = exact_type(alloc, low.as_bytes())?;
    let high = read_type(alloc, high.as_bytes()).ok()?;
    Some(world.subtype(&low, &high))
}

/// Whether the exact type is of the universe.
fn is_within(alloc: Global, world: &World, of: &str) -> Option<bool> {
    let of = exact_type(alloc, of.as_bytes())?;
    Some(world.is_in_universe(&of))
}

/// The types of the universe, each on a line.
fn write_universe(world: &World, text: &mut Vec<u8>) -> RowResult<()> {
    for of in world.universe() {
        write_exact(of, text)?;
        add("\n", text)?;
    }
    Ok(())
}

/// The number of the class, its name, and whether a file gives it.
fn write_class(alloc: Global, world: &World, name: &str, text: &mut Vec<u8>) -> RowResult<()> {
    let Some(class) = class_of(alloc, world, name) else {
        return write_none(text);
    };
    add_number(alloc, "", i64::from(class.0), " ", text)?;
    write_text(world.name_of(class), text)?;
    add_origin(world.file_of(class).is_some(), text)
}

/// The slots of the objects of the class, each on a line.
fn write_slots(alloc: Global, world: &World, name: &str, text: &mut Vec<u8>) -> RowResult<()> {
    let Some(class) = class_of(alloc, world, name) else {
        return write_none(text);
    };
    for field in world.fields_of(class) {
        write_slot(alloc, field, text)?;
    }
    Ok(())
}

/// The number of the slot, that of the class that declares it, its name and its type.
fn write_slot(alloc: Global, field: &FieldSlot, text: &mut Vec<u8>) -> RowResult<()> {
    add_number(alloc, "", i64::from(field.slot), " of class ", text)?;
    add_number(alloc, "", i64::from(field.class.0), ": ", text)?;
    write_text(&field.name, text)?;
    add(" ", text)?;
    write_kind(&field.kind, text)?;
    add("\n", text)
}

/// What the entry of that number of the class's constant pool is, of the kinds that the world tells.
fn write_entry(
    alloc: Global,
    world: &World,
    name: &str,
    entry: &str,
    text: &mut Vec<u8>,
) -> RowResult<()> {
    let Some(class) = class_of(alloc, world, name) else {
        return write_none(text);
    };
    let entry = read_entry(entry)?;
    if let Some(of) = world.type_entry(class, entry) {
        return write_type_entry(of, text);
    }
    if let Some(value) = world.int_entry(class, entry) {
        return add_number(alloc, "int ", i64::from(value), "\n", text);
    }
    match world.literal_entry(class, entry) {
        Some(number) => add_number(alloc, "literal ", i64::from(number), "\n", text),
        None => write_none(text),
    }
}

/// The name of the method, the number of its class, and its access flags.
fn write_method(alloc: Global, world: &World, target: &str, text: &mut Vec<u8>) -> RowResult<()> {
    let Some(id) = method_of(alloc, world, target) else {
        return write_none(text);
    };
    let method = world.method_of(id);
    write_text(&method.name, text)?;
    add_number(alloc, " of class ", i64::from(method.class.0), "", text)?;
    add_number(alloc, " with flags ", i64::from(method.access), "\n", text)
}

/// The place of the instruction at that offset of the method's code.
fn write_place(
    alloc: Global,
    world: &World,
    target: &str,
    at: &str,
    text: &mut Vec<u8>,
) -> RowResult<()> {
    let Some(id) = method_of(alloc, world, target) else {
        return write_none(text);
    };
    let at = read_number(at)?;
    match world.place_at(id, at) {
        Some(place) => write_number(alloc, place, text),
        None => write_none(text),
    }
}

/// Whether all that a target reaches can be carried out.
enum Reach {
    Whole,
    // No method may be called at that offset.
    Uncallable(u32),
    Refused,
}

/// Whether what the target reaches can be carried out, or which call cannot.
fn write_reach(alloc: Global, world: &World, target: &str, text: &mut Vec<u8>) -> RowResult<()> {
    match reach_asked(alloc, world, target)? {
        Reach::Whole => add("reached\n", text),
        Reach::Uncallable(at) => add_number(alloc, "no such call at ", i64::from(at), "\n", text),
        Reach::Refused => add("refused\n", text),
    }
}

fn reach_asked(alloc: Global, world: &World, target: &str) -> RowResult<Reach> {
    match read_target(alloc, target.as_bytes()) {
        Ok(target) => Ok(reach_of(alloc, world, &target)),
        Err(_) => Err(RowStop::Malformed),
    }
}

fn reach_of(alloc: Global, world: &World, target: &Target) -> Reach {
    let reached = world.reach(alloc, target);
    let told = reach_told(&reached);
    drop(reached);
    told
}

fn reach_told(reached: &Result<MethodId, LinkRefusal>) -> Reach {
    match reached {
        Ok(_) => Reach::Whole,
        Err(LinkRefusal::Outside(_, at, What::Method)) => Reach::Uncallable(*at),
        Err(_) => Reach::Refused,
    }
}

/// The class of that name.
#[tactic(auto, using(kb_classes::proofs::Named::number_inside))]
fn class_of(alloc: Global, world: &World, name: &str) -> Option<ClassId>
    ensures { IfSome result (λ id. id.0 < length world.now.classes) }
{
    let Ok(name) = Name::from_slice(alloc, name.as_bytes()) else {
        return None;
    };
    world.class_named(&name)
}

/// The method that the target names.
fn method_of(alloc: Global, world: &World, target: &str) -> Option<MethodId>
    ensures { IfSome result (λ id. id.0 < length (methods_in world.now.classes)) }
{
    let Ok(target) = read_target(alloc, target.as_bytes()) else {
        return None;
    };
    world.find_target(&target)
}

/// The class of that name, or the array type of that descriptor.
fn exact_type(alloc: Global, text: &[u8]) -> Option<ExactType> {
    match text {
        [b'[', component @ ..] => Some(ExactType::Array(read_type(alloc, component).ok()?)),
        _ => Some(ExactType::Class(Name::from_slice(alloc, text).ok()?)),
    }
}

fn write_number(alloc: Global, number: u32, text: &mut Vec<u8>) -> RowResult<()> {
    add_number(alloc, "", i64::from(number), "\n", text)
}
