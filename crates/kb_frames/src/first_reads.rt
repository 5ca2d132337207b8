//! Slots that are read for the first time.
ghost use Rattle.std.specs.Prelude.{◌≡◌, [], ◌∷◌, ◌++◌, replicate, IfOk, OnOk};
ghost use Rattle.kb_picture.specs.Growth.{after_read};
ghost use Rattle.kb_picture.specs.Laws.{with_seen};
ghost use Rattle.kb_picture.specs.declared.choice.Choice.TheVariants.{Fresh, Location};
ghost use Rattle.kb_frames.specs.declared.value.Cell.TheVariants.{Untouched};
ghost use Rattle.kb_frames.specs.FirstReads.{cells_chosen, first_int, first_reference, found_in, new_cells, value_chosen, with_read};

use crate::NoMemory;
use crate::beginning::add_equal;
use crate::state::{Stage, SymState};
use crate::value::{Cell, SymValue};
use kb_names::ExactType;
use kb_picture::{Choice, Length, Origin, PicLoc, PicObject, Seen, Standing};
use kb_rows::Row;
use kb_semantics::World;
use kb_terms::VarKind;
use std::alloc::Global;

impl SymState {
    /// Reads a reference for the first time: what was chosen for it is found there. The picture sees it, a new object has cells
    /// of which none is touched, and the slot keeps the value; an argument is one more that was read. It takes time in
    /// proportion to the cells of a new object. After memory ran out the state is only dropped.
    ///
    /// Source: Khurshid, Păsăreanu and Visser (TACAS 2003).
    pub fn first_reference(
        &mut self,
        world: &World,
        slot: Origin,
        choice: &Choice,
    ) -> Result<(), NoMemory>
        ensures { OnOk result (self.new ≡ first_reference world.now slot choice.now self.old) }
    {
        let value = self.value_chosen(choice)?;
        self.grow(world, slot, choice)?;
        self.keep_found(slot, value)
    }

    /// Reads an int or a boolean for the first time: it is a new variable, which the slot keeps; an argument is one more that
    /// was read. After memory ran out the state is only dropped.
    pub fn first_int(&mut self, slot: Origin, kind: VarKind) -> Result<(), NoMemory>
        ensures { OnOk result (self.new ≡ first_int slot kind self.old) }
    {
        let term = self.pool.variable(kind)?;
        self.picture.see_variable(slot)?;
        self.keep_found(slot, SymValue::Int(term))
    }

    // What a reference is that is chosen so.
    fn value_chosen(&self, choice: &Choice) -> Result<SymValue, NoMemory>
        ensures { IfOk result (λ value. value ≡ value_chosen self.now.picture choice.now) }
    {
        let picture = self.picture.get();
        match choice {
            Choice::Alias(number) => Ok(SymValue::Obj(*number)),
            Choice::Fresh(..) => Ok(SymValue::Obj(numbered(picture.objects.as_slice().len())?)),
            Choice::Location => Ok(SymValue::Loc(numbered(picture.locs.as_slice().len())?)),
            _ => Ok(SymValue::Null),
        }
    }

    // The picture grows by what is chosen, and a new object has its cells.
    #[tactic(auto, unfolding(kb_picture::specs::Growth::after_read))]
    fn grow(&mut self, world: &World, slot: Origin, choice: &Choice) -> Result<(), NoMemory>
        ensures { OnOk result (self.new ≡ record self.old { picture = after_read self.old.picture slot choice.now; cells = self.old.cells ++ cells_chosen world.now choice.now }) }
    {
        match choice {
            Choice::Null => self.see(slot, Seen::Null),
            Choice::Alias(number) => self.see(slot, Seen::Obj(*number)),
            Choice::Beyond => self.see(slot, Seen::Beyond),
            Choice::Location => self.find_location(slot),
            Choice::Fresh(kind, length) => self.find_object(world, slot, kind, *length),
            _ => Ok(()),
        }
    }

    // The slot is seen so.
    fn see(&mut self, slot: Origin, seen: Seen) -> Result<(), NoMemory>
        ensures { OnOk result (self.new ≡ record self.old { picture = with_seen self.old.picture (slot, seen) }) }
    {
        self.picture.see(slot, seen)
    }

    // A location is found in the slot.
    #[tactic(auto, unfolding(kb_picture::specs::Growth::after_read))]
    fn find_location(&mut self, slot: Origin) -> Result<(), NoMemory>
        ensures { OnOk result (self.new ≡ record self.old { picture = after_read self.old.picture slot Location }) }
    {
        let number = numbered(self.picture.get().locs.as_slice().len())?;
        self.picture.add_location(PicLoc {
            origin: slot,
            standing: Standing::Open,
        })?;
        self.see(slot, Seen::Loc(number))
    }

    // An object is found in the slot.
    #[tactic(auto, unfolding(kb_picture::specs::Growth::after_read))]
    fn find_object(
        &mut self,
        world: &World,
        slot: Origin,
        kind: &ExactType,
        length: Length,
    ) -> Result<(), NoMemory>
        ensures { OnOk result (self.new ≡ record self.old { picture = after_read self.old.picture slot (Fresh kind.now length); cells = self.old.cells ++ new_cells world.now kind.now length ∷ [] }) }
    {
        let number = numbered(self.picture.get().objects.as_slice().len())?;
        self.picture.add_object(PicObject {
            kind: kind.copied(self.alloc)?,
            length,
            origin: slot,
        })?;
        self.add_cells(world, kind, length)?;
        self.see(slot, Seen::Obj(number))
    }

    /// A new object has cells of which none is touched.
    pub(crate) fn add_cells(
        &mut self,
        world: &World,
        kind: &ExactType,
        length: Length,
    ) -> Result<(), NoMemory>
        ensures { OnOk result (self.new ≡ record self.old { cells = self.old.cells ++ new_cells world.now kind.now length ∷ [] }) }
    {
        let cells = new_cells(self.alloc, world, kind, length)?;
        self.cells.push(cells)?;
        Ok(())
    }

    // The slot keeps what was found in it.
    fn keep_found(&mut self, slot: Origin, value: SymValue) -> Result<(), NoMemory>
        ensures { OnOk result (self.new ≡ found_in slot value self.old) }
    {
        match slot {
            Origin::Arg(_) => self.add_argument(value),
            Origin::Field(object, number) | Origin::Element(object, number) => {
                self.set_cell(object, number, Cell::Read(value));
                Ok(())
            }
        }
    }

    // One argument more was read.
    fn add_argument(&mut self, value: SymValue) -> Result<(), NoMemory>
        ensures { OnOk result (self.new ≡ record self.old { stage = with_read self.old.stage value }) }
    {
        match &mut self.stage {
            Stage::Begins(read) => {
                read.push(value)?;
                Ok(())
            }
            Stage::Runs(..) => Ok(()),
        }
    }
}

// The number of the next one of so many.
pub(crate) fn numbered(count: usize) -> Result<u32, NoMemory>
    ensures { IfOk result (λ number. number ≡ count) }
{
    match u32::try_from(count) {
        Ok(number) => Ok(number),
        Err(_) => Err(NoMemory),
    }
}

// The cells of an object that was found.
fn new_cells(
    alloc: Global,
    world: &World,
    kind: &ExactType,
    length: Length,
) -> Result<Row<Cell>, NoMemory>
    ensures { IfOk result (λ cells. cells ≡ new_cells world.now kind.now length) }
{
    match kind {
        ExactType::Class(name) => untouched(alloc, world.slots_named(name).len()),
        ExactType::Array(_) => match length {
            Length::Is(count) => untouched(alloc, count as usize),
            Length::Plain | Length::Above(_) => Ok(Row::new(alloc)),
        },
    }
}

fn untouched(alloc: Global, count: usize) -> Result<Row<Cell>, NoMemory>
    ensures { IfOk result (λ cells. cells ≡ replicate count Untouched) }
{
    let mut cells = Row::new(alloc);
    add_equal(count, Cell::Untouched, &mut cells)?;
    Ok(cells)
}
