//! What the heap of a state states.
ghost use Rattle.std.specs.Prelude.{◌≡◌, [], ◌++◌, slice_get, IfOk, OnOk};
ghost use Rattle.std.specs.List.{cons_option};
ghost use Rattle.std.specs.Option.{option_copied};
ghost use Rattle.kb_stated.specs.Stated.{stated, stated_values, stated_object, made_of, slot_in, write_of, slot_writes, object_writes, writes_of};

use kb_frames::{Cell, NoMemory, SymObject, SymState, SymValue};
use kb_names::ExactType;
use kb_picture::{Made, Origin, Out, PicObject, Write};
use kb_rows::Row;
use kb_terms::Operand;
use std::alloc::Global;

/// The slots of the picture's objects that the run has written, each with its present value, by rising object and slot. The
/// terms have their numbers in the state's pool.
pub fn writes(alloc: Global, state: &SymState) -> Result<Row<Write>, NoMemory>
    ensures { IfOk result (λ writes. writes ≡ writes_of state.now) }
{
    let objects = state.picture().objects.as_slice();
    let mut writes = Row::new(alloc);
    let mut number: u32 = 0;
    let mut rest = state.cells();
    while let [slots, others @ ..] = rest {
        let object = object_at(objects, number);
        add_object(state, object, number, slots.as_slice(), &mut writes)?;
        number = number.checked_add(1).ok_or(NoMemory)?;
        rest = others;
    }
    Ok(writes)
}

/// The objects that the run has made, in order, each with the present values of its slots or elements.
pub fn made(alloc: Global, state: &SymState) -> Result<Row<Made>, NoMemory>
    ensures { IfOk result (λ made. made ≡ made_of state.now) }
{
    let mut made = Row::new(alloc);
    for object in state.made_objects() {
        made.push(stated_object(alloc, state, object)?)?;
    }
    Ok(made)
}

// The object of the picture of that number.
fn object_at(objects: &[PicObject], number: u32) -> Option<&PicObject>
    ensures { option_copied result ≡ slice_get objects.now number }
{
    objects.get(number as usize)
}

// Adds the written slots of an object of the picture.
fn add_object(
    state: &SymState,
    object: Option<&PicObject>,
    number: u32,
    slots: &[Cell],
    writes: &mut Row<Write>,
) -> Result<(), NoMemory>
    ensures { OnOk result (writes.new ≡ writes.old ++ object_writes state.now.picture.locs (option_copied object.entry) number slots.now) }
{
    match object {
        Some(object) => add_slots(state, &object.kind, number, slots, writes),
        None => Ok(()),
    }
}

// Adds the written slots of an object of the exact type.
#[tactic(auto, using(kb_numbered::proofs::PathSteps::push_option))]
fn add_slots(
    state: &SymState,
    kind: &ExactType,
    number: u32,
    slots: &[Cell],
    writes: &mut Row<Write>,
) -> Result<(), NoMemory>
    ensures { OnOk result (writes.new ≡ writes.old ++ slot_writes state.now.picture.locs kind.now number 0 slots.now) }
{
    let mut slot: u32 = 0;
    let mut rest = slots;
    while let [cell, others @ ..] = rest {
        add_slot(state, slot_in(kind, number, slot), *cell, writes)?;
        slot = slot.checked_add(1).ok_or(NoMemory)?;
        rest = others;
    }
    Ok(())
}

// Adds a slot that was written.
fn add_slot(
    state: &SymState,
    slot: Origin,
    cell: Cell,
    writes: &mut Row<Write>,
) -> Result<(), NoMemory>
    ensures { OnOk result (writes.new ≡ writes.old ++ cons_option (write_of state.now.picture.locs slot cell) []) }
{
    match cell {
        Cell::Written(value) => {
            writes.push(Write {
                slot,
                value: stated(state, value),
            })?;
            Ok(())
        }
        Cell::Read(_) | Cell::Untouched => Ok(()),
    }
}

fn slot_in(kind: &ExactType, object: u32, slot: u32) -> Origin
    ensures { result ≡ slot_in kind.now object slot }
{
    match kind {
        ExactType::Class(_) => Origin::Field(object, slot),
        ExactType::Array(_) => Origin::Element(object, slot),
    }
}

// A value, as a path states it: a location that is known to be an object of the picture is that object.
fn stated(state: &SymState, value: SymValue) -> Out
    ensures { result ≡ stated state.now.picture.locs value }
{
    match state.resolved(value) {
        SymValue::Int(term) => Out::Int(Operand::Term(term.0)),
        SymValue::Null => Out::Null,
        SymValue::Obj(number) => Out::Obj(number),
        SymValue::Literal(number) => Out::Literal(number),
        SymValue::New(number) => Out::New(number),
        SymValue::Loc(number) => Out::Loc(number),
    }
}

fn stated_object(alloc: Global, state: &SymState, object: &SymObject) -> Result<Made, NoMemory>
    ensures { IfOk result (λ made. made ≡ stated_object state.now.picture.locs object.now) }
{
    let kind = object.kind.copied(alloc)?;
    let values = stated_values(alloc, state, object.values.as_slice())?;
    Ok(Made { kind, values })
}

fn stated_values(alloc: Global, state: &SymState, values: &[SymValue]) -> Result<Row<Out>, NoMemory>
    ensures { IfOk result (λ outs. outs ≡ stated_values state.now.picture.locs values.now) }
{
    let mut outs = Row::new(alloc);
    for value in values {
        outs.push(stated(state, *value))?;
    }
    Ok(outs)
}
