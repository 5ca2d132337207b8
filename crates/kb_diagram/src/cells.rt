//! What stands in the slots of objects, as a table by object and slot, which is made once for a path.
ghost use Rattle.std.specs.Prelude.{◌≡◌, ◌++◌, ◌==◌, ◌&&◌, ℕ, map, Some, if◌then◌else◌, OnOk};
ghost use Rattle.kb_diagram.specs.Cells.{shown_as, standing_as};
ghost use Rattle.kb_diagram.specs.Tables.{cell_in, cell_text, seen_cell, written_cell, HasMore, Puts};

use crate::NoMemory;
use kb_path_words::{Text, write_out, write_seen};
use kb_picture::{Origin, Out, PicLoc, Seen, Standing, Write};
use std::collections::HashMap;

/// A slot of an object: the object's number, and that of its field or of its element.
#[derive(Clone, Copy, PartialEq, Eq, Hash)]
pub(crate) struct Slot {
    object: usize,
    number: usize,
}

/// What stands in a slot.
#[derive(Clone, Copy)]
pub(crate) enum Cell {
    /// What it is seen to hold, where a bound location is shown as its object.
    Shown(Seen),
    /// The last value that the run wrote.
    Written(Out),
}

/// Puts what is seen in each slot into the table.
pub(crate) fn put_seen(
    cells: &mut HashMap<Slot, Cell>,
    locs: &[PicLoc],
    seen: &[(Origin, Seen)],
) -> Result<(), NoMemory>
    ensures { OnOk result (HasMore (map (seen_cell locs.now) seen.now) cells.old cells.new) }
{
    let mut rest = seen;
    while let [slot, others @ ..] = rest {
        put_slot(cells, locs, slot)?;
        rest = others;
    }
    Ok(())
}

/// Puts what the run wrote into the table.
pub(crate) fn put_writes(cells: &mut HashMap<Slot, Cell>, writes: &[Write]) -> Result<(), NoMemory>
    ensures { OnOk result (HasMore (map written_cell writes.now) cells.old cells.new) }
{
    let mut rest = writes;
    while let [write, others @ ..] = rest {
        put_write(cells, write)?;
        rest = others;
    }
    Ok(())
}

fn put_slot(
    cells: &mut HashMap<Slot, Cell>,
    locs: &[PicLoc],
    slot: &(Origin, Seen),
) -> Result<(), NoMemory>
    ensures { OnOk result (Puts (seen_cell locs.now slot.now) cells.old cells.new) }
{
    put(cells, slot.0, Cell::Shown(shown_as(locs, slot.1)))
}

fn put_write(cells: &mut HashMap<Slot, Cell>, write: &Write) -> Result<(), NoMemory>
    ensures { OnOk result (Puts (written_cell write.now) cells.old cells.new) }
{
    put(cells, write.slot, Cell::Written(write.value))
}

// A location that is bound is shown as its object.
fn shown_as(locs: &[PicLoc], seen: Seen) -> Seen
    ensures { result ≡ shown_as locs.now seen }
{
    let Seen::Loc(number) = seen else {
        return seen;
    };
    match locs.get(number as usize) {
        Some(loc) => standing_as(number, loc.standing),
        None => seen,
    }
}

fn standing_as(number: u32, standing: Standing) -> Seen
    ensures { result ≡ standing_as number standing }
{
    match standing {
        Standing::Obj(object) => Seen::Obj(object),
        Standing::Open | Standing::Beyond => Seen::Loc(number),
    }
}

// Puts what stands in a slot of an object in the place of what the table had there; an argument is no such slot.
fn put(cells: &mut HashMap<Slot, Cell>, slot: Origin, cell: Cell) -> Result<(), NoMemory>
    ensures { OnOk result (Puts (slot, cell) cells.old cells.new) }
{
    match slot {
        Origin::Arg(_) => Ok(()),
        Origin::Field(object, slot) => put_at(cells, object, slot, cell),
        Origin::Element(array, index) => put_at(cells, array, index, cell),
    }
}

fn put_at(
    cells: &mut HashMap<Slot, Cell>,
    object: u32,
    number: u32,
    cell: Cell,
) -> Result<(), NoMemory>
    ensures { OnOk result ((other slot : ℕ) → cell_in cells.new other slot ≡ (if (object == other) && (number == slot) then Some cell else cell_in cells.old other slot)) }
{
    let slot = Slot {
        object: object as usize,
        number: number as usize,
    };
    cells.insert(slot, cell)?;
    Ok(())
}

// What the table has for that slot of the object.
fn cell_at(cells: &HashMap<Slot, Cell>, object: usize, number: usize) -> Option<Cell>
    ensures { result ≡ cell_in cells.now object number }
{
    let slot = Slot { object, number };
    let cell = cells.get(&slot)?;
    Some(*cell)
}

/// Writes what the table has for that slot of the object.
#[tactic(auto, unfolding(crate::specs::Tables::cell_text))]
pub(crate) fn write_held(
    text: &mut Text,
    cells: &HashMap<Slot, Cell>,
    object: usize,
    number: usize,
) -> Result<(), NoMemory>
    ensures { OnOk result (text.new ≡ text.old ++ cell_text (cell_in cells.now object number)) }
{
    match cell_at(cells, object, number) {
        None => text.put("?"),
        Some(Cell::Shown(seen)) => write_seen(text, seen),
        Some(Cell::Written(out)) => write_out(text, &out),
    }
}
