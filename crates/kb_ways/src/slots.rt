//! The slots and the elements of objects.
ghost use Rattle.std.specs.Prelude.{◌≡◌, option_and_then, IfOk};
ghost use Rattle.kb_frames.specs.Heaps.{value_of_cell};
ghost use Rattle.kb_ways.specs.Slots.{first_ask, held_in, put_in};

use crate::NoMemory;
use crate::question::Question;
use kb_frames::{Cell, SymState, SymValue};
use kb_names::JType;
use kb_picture::Origin;
use std::alloc::Global;

/// What is asked of a slot of that declared type: nobody has read or written it, and it is read for the first time.
pub fn first_ask(
    alloc: Global,
    slot: Origin,
    kind: &JType,
    cell: Option<Cell>,
) -> Result<Option<Question>, NoMemory>
    ensures { IfOk result (λ asked. asked ≡ first_ask slot kind.now cell) }
{
    match cell {
        Some(Cell::Untouched) => Ok(Some(Question::Reads(slot, kind.copied(alloc)?))),
        Some(Cell::Read(_)) | Some(Cell::Written(_)) | None => Ok(None),
    }
}

/// The value of a slot that was read or written.
pub fn value_of_cell(cell: Option<Cell>) -> Option<SymValue>
    ensures { result ≡ option_and_then value_of_cell cell }
{
    match cell? {
        Cell::Read(value) | Cell::Written(value) => Some(value),
        Cell::Untouched => None,
    }
}

/// The value of a slot or an element of the object, where it was read or written.
pub fn held_in(state: &SymState, object: SymValue, slot: u32) -> Option<SymValue>
    ensures { result ≡ held_in state.now object slot }
{
    match object {
        SymValue::Obj(number) => value_of_cell(state.cell(number, slot)),
        SymValue::New(number) => state.made_value(number, slot),
        SymValue::Int(_) | SymValue::Null | SymValue::Literal(_) | SymValue::Loc(_) => None,
    }
}

/// Writes a slot or an element of an object of the picture, or of one that the run has made.
pub fn put_in(state: &mut SymState, object: SymValue, slot: u32, value: SymValue)
    ensures { state.new ≡ put_in object slot value state.old }
{
    match object {
        SymValue::Obj(number) => state.write(number, slot, value),
        SymValue::New(number) => state.write_made(number, slot, value),
        SymValue::Int(_) | SymValue::Null | SymValue::Literal(_) | SymValue::Loc(_) => {}
    }
}
