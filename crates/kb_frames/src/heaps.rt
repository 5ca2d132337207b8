//! What steps read of the heap of a state, and write into it.
ghost use Rattle.std.specs.Prelude.{◌≡◌, slice_set};
ghost use Rattle.std.specs.Option.{option_copied};
ghost use Rattle.kb_frames.specs.Heaps.{exact_type_of, find_cell, made_value, with_cell, wrote, wrote_made};

use crate::state::{SymObject, SymState};
use crate::value::{Cell, SymValue};
use kb_names::ExactType;
use kb_rows::Row;

impl SymState {
    /// The exact type of an object of the picture, or of one that the run has made. None of every other value, and of a number
    /// that no object has.
    pub fn exact_type_of(&self, value: SymValue) -> Option<&ExactType>
        ensures { option_copied result ≡ exact_type_of self.now value }
    {
        let objects = self.picture.get().objects.as_slice();
        match value {
            SymValue::Obj(number) => match objects.get(number as usize) {
                Some(object) => Some(&object.kind),
                None => None,
            },
            SymValue::New(number) => match self.made.as_slice().get(number as usize) {
                Some(object) => Some(&object.kind),
                None => None,
            },
            SymValue::Int(_) | SymValue::Null | SymValue::Literal(_) | SymValue::Loc(_) => None,
        }
    }

    /// Of each object of the picture what is known of its slots or elements.
    pub fn cells(&self) -> &[Row<Cell>]
        ensures { result.now ≡ self.now.cells }
    {
        self.cells.as_slice()
    }

    /// The objects that the run has made, in the order of making.
    pub fn made_objects(&self) -> &[SymObject]
        ensures { result.now ≡ self.now.made }
    {
        self.made.as_slice()
    }

    /// What is known of a slot or an element of an object of the picture, where it has that.
    pub fn cell(&self, object: u32, slot: u32) -> Option<Cell>
        ensures { result ≡ find_cell self.now.cells object slot }
    {
        let slots = self.cells.as_slice().get(object as usize)?;
        slots.as_slice().get(slot as usize).copied()
    }

    /// The value of a slot or an element of an object that the run has made, where it has that.
    pub fn made_value(&self, object: u32, slot: u32) -> Option<SymValue>
        ensures { result ≡ made_value self.now.made object slot }
    {
        let object = self.made.as_slice().get(object as usize)?;
        object.values.as_slice().get(slot as usize).copied()
    }

    /// Writes a slot or an element of an object of the picture. One that is not there is left out. It takes no memory.
    pub fn write(&mut self, object: u32, slot: u32, value: SymValue)
        ensures { self.new ≡ wrote object slot value self.old }
    {
        self.set_cell(object, slot, Cell::Written(value));
    }

    /// Writes a slot or an element of an object that the run has made. One that is not there is left out. It takes no memory.
    pub fn write_made(&mut self, object: u32, slot: u32, value: SymValue)
        ensures { self.new ≡ wrote_made object slot value self.old }
    {
        if object as usize >= self.made.as_slice().len() {
            return;
        }
        let object = self.made.item_mut(object as usize);
        set_at(&mut object.values, slot as usize, value);
    }

    /// Puts another cell in the place of one. One that is not there is left out.
    pub(crate) fn set_cell(&mut self, object: u32, slot: u32, cell: Cell)
        ensures { self.new ≡ record self.old { cells = with_cell self.old.cells object slot cell } }
    {
        if object as usize >= self.cells.as_slice().len() {
            return;
        }
        let slots = self.cells.item_mut(object as usize);
        set_at(slots, slot as usize, cell);
    }
}

#[tactic(auto, using(std::proofs::lemmas::List::set_past))]
fn set_at<T: Drop>(items: &mut Row<T>, place: usize, item: T)
    ensures { items.new ≡ slice_set items.old place item }
{
    if place < items.as_slice().len() {
        items.set(place, item);
    }
}
