//! Locations that are looked into: which object they are.
ghost use Rattle.std.specs.Prelude.{◌≡◌, ◌++◌, OnOk};
ghost use Rattle.kb_picture.specs.Growth.{after_access};
ghost use Rattle.kb_picture.specs.declared.choice.Choice.TheVariants.{Fresh};
ghost use Rattle.kb_frames.specs.FirstReads.{cells_chosen};
ghost use Rattle.kb_frames.specs.Bindings.{bound, resolved, resolved_loc};

use crate::NoMemory;
use crate::first_reads::numbered;
use crate::state::SymState;
use crate::value::SymValue;
use kb_names::ExactType;
use kb_picture::{Choice, Length, PicLoc, Standing};
use kb_semantics::World;

impl SymState {
    /// What a value is: a location that is known to be an object of the picture is that object, and every other value is itself.
    /// It takes constant time.
    pub fn resolved(&self, value: SymValue) -> SymValue
        ensures { result ≡ resolved self.now.picture.locs value }
    {
        resolved(self.picture.get().locs.as_slice(), value)
    }

    /// Binds the location of that number: the choice is the object that it is, one of the picture's, a new one, or one beyond the
    /// bound. The picture alone changes, and a new object has cells of which none is touched; who holds the location holds it
    /// still. It takes time in proportion to the cells of a new object. After memory ran out the state is only dropped.
    ///
    /// Source: Deng, Lee and Robby (ASE 2006).
    #[tactic(auto, unfolding(kb_picture::specs::Growth::after_access))]
    pub fn bind(&mut self, world: &World, number: u32, choice: &Choice) -> Result<(), NoMemory>
        ensures { OnOk result (self.new ≡ bound world.now number choice.now self.old) }
    {
        match choice {
            Choice::Alias(object) => self.picture.set_standing(number, Standing::Obj(*object)),
            Choice::Beyond => self.picture.set_standing(number, Standing::Beyond),
            Choice::Fresh(kind, length) => self.bind_new(world, number, kind, *length)?,
            _ => {}
        }
        Ok(())
    }

    // The location is a new object, which is found where the location was read.
    #[tactic(auto, unfolding(kb_picture::specs::Growth::after_access))]
    fn bind_new(
        &mut self,
        world: &World,
        number: u32,
        kind: &ExactType,
        length: Length,
    ) -> Result<(), NoMemory>
        ensures { OnOk result (self.new ≡ bound world.now number (Fresh kind.now length) self.old) }
    {
        let object = numbered(self.picture.get().objects.as_slice().len())?;
        let kind_of = kind.copied(self.alloc)?;
        self.picture.add_object_at(number, kind_of, length)?;
        self.add_cells(world, kind, length)?;
        self.picture.set_standing(number, Standing::Obj(object));
        Ok(())
    }
}

/// What a value is, where these are the locations.
pub(crate) fn resolved(locs: &[PicLoc], value: SymValue) -> SymValue
    ensures { result ≡ resolved locs.now value }
{
    match value {
        SymValue::Loc(number) => resolved_loc(locs, number),
        SymValue::Int(_)
        | SymValue::Null
        | SymValue::Obj(_)
        | SymValue::Literal(_)
        | SymValue::New(_) => value,
    }
}

fn resolved_loc(locs: &[PicLoc], number: u32) -> SymValue
    ensures { result ≡ resolved_loc locs.now number }
{
    match locs.get(number as usize) {
        Some(loc) => match loc.standing {
            Standing::Obj(object) => SymValue::Obj(object),
            Standing::Open | Standing::Beyond => SymValue::Loc(number),
        },
        None => SymValue::Loc(number),
    }
}
