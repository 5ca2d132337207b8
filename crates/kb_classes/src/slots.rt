//! The slots of the objects of each class.
ghost use Rattle.std.specs.Prelude.{◌≡◌, map, length, ◌++◌, ◌∷◌, [], IfOk};
ghost use Rattle.kb_class.specs.Class.{Class};
ghost use Rattle.kb_class.specs.declared.members.FieldInfo.{FieldInfo};
ghost use Rattle.kb_classes.specs.Slots.{has_slot_type, has_slot, slot_of, slots_among, own_slots_at, slots_along, numbered};

use crate::classes::Classes;
use crate::items::item_at;
use kb_class::{ClassId, FieldInfo, LoadedClass, is_static};
use kb_names::{JType, Name, NoMemory, Row};
use std::alloc::Global;

/// A slot of the objects of a class: the class that declares the field, the slot's number from 0, and the field's name and
/// type.
#[derive(Drop)]
pub struct FieldSlot {
    pub class: ClassId,
    pub slot: u32,
    pub name: Name,
    pub kind: JType,
}

/// The slots of each class.
pub fn slots_of(
    alloc: Global,
    classes: &Classes,
    chains: &[Row<u32>],
) -> Result<Vec<Row<FieldSlot>>, NoMemory>
    ensures { IfOk result (λ slots. slots.items ≡ map (slots_along classes.now) chains.now) }
{
    let mut slots = Vec::new(alloc);
    for chain in chains {
        let own = slots_along(alloc, classes.as_slice(), chain.as_slice())?;
        slots.push(own)?;
    }
    Ok(slots)
}

// The slots of the class at the end of a chain of superclasses.
fn slots_along(
    alloc: Global,
    classes: &[LoadedClass],
    chain: &[u32],
) -> Result<Row<FieldSlot>, NoMemory>
    ensures { IfOk result (λ slots. slots ≡ slots_along classes.now chain.now) }
{
    let mut slots = Row::new(alloc);
    for back in 0..chain.len() {
        let number = chain[chain.len() - 1 - back];
        slots = with_slots_at(alloc, slots, classes, number)?;
    }
    Ok(slots)
}

// The slots with those of the fields of a class behind them.
fn with_slots_at(
    alloc: Global,
    slots: Row<FieldSlot>,
    classes: &[LoadedClass],
    number: u32,
) -> Result<Row<FieldSlot>, NoMemory>
    ensures { IfOk result (λ after. after ≡ slots ++ numbered (length slots) (own_slots_at classes.now number)) }
{
    match item_at(classes, number) {
        Some(class) => with_slots(alloc, slots, number, class.fields()),
        None => Ok(slots),
    }
}

// The slots with those of these fields behind them.
fn with_slots(
    alloc: Global,
    slots: Row<FieldSlot>,
    number: u32,
    fields: &[FieldInfo],
) -> Result<Row<FieldSlot>, NoMemory>
    ensures { IfOk result (λ after. after ≡ slots ++ numbered (length slots) (slots_among number fields.now)) }
{
    let mut after = slots;
    let mut rest = fields;
    while let [field, others @ ..] = rest {
        after = with_field(alloc, after, number, field)?;
        rest = others;
    }
    Ok(after)
}

// The slots with that of a field behind them, if it has one.
fn with_field(
    alloc: Global,
    slots: Row<FieldSlot>,
    number: u32,
    field: &FieldInfo,
) -> Result<Row<FieldSlot>, NoMemory>
    ensures { IfOk result (λ after. after ≡ slots ++ numbered (length slots) (slots_among number (field.now ∷ []))) }
{
    if !has_slot(field) {
        return Ok(slots);
    }
    let slot = slot_of(alloc, slots.as_slice().len(), number, field)?;
    slots.with(slot)
}

// The slot of that number. Numbers beyond 32 bits count as out of memory.
fn slot_of(
    alloc: Global,
    slot: usize,
    number: u32,
    field: &FieldInfo,
) -> Result<FieldSlot, NoMemory>
    ensures { IfOk result (λ told. told ≡ slot_of slot (record { class = number; field = field.now })) }
{
    let Ok(slot) = u32::try_from(slot) else {
        return Err(NoMemory);
    };
    Ok(FieldSlot {
        class: ClassId(number),
        slot,
        name: field.name.copied(alloc)?,
        kind: field.kind.copied(alloc)?,
    })
}

/// Whether the field has a slot.
pub fn has_slot(field: &FieldInfo) -> bool
    ensures { result ≡ has_slot field.now }
{
    if is_static(field.access) {
        return false;
    }
    has_slot_type(&field.kind)
}

// Whether a value of the type has a slot.
fn has_slot_type(kind: &JType) -> bool
    ensures { result ≡ has_slot_type kind.now }
{
    match kind {
        JType::Bool | JType::Int | JType::Class(_) | JType::Array(_) => true,
        _ => false,
    }
}
