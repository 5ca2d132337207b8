//! A picture that grows by what a run reads.
ghost use Rattle.std.specs.Prelude.{◌≡◌, ◌+◌, [], length, IfOk, OnOk};
ghost use Rattle.std.specs.List.{cons_option};
ghost use Rattle.kb_picture.specs.Growth.{after_int_read, with_fresh_at, with_standing};
ghost use Rattle.kb_picture.specs.Laws.{with_loc, with_object, with_seen};
ghost use Rattle.kb_picture.specs.WellFormed.{variable_seen};

use crate::NoMemory;
use crate::picture::{Length, Origin, PicLoc, PicObject, Picture, Seen, Standing};
use kb_names::ExactType;
use std::alloc::Global;
use std::marker::Model;

/// A picture that grows, with the number of the variable that it sees next, so that this one is known at once.
#[derive(Drop)]
pub struct GrowingPicture {
    picture: Picture,
    variables: u32,
}

impl Model for GrowingPicture {
    ghost use Rattle.std.specs.Prelude.{◌≡◌, length};
    ghost use Rattle.kb_picture.specs.declared.picture.Picture.{Picture};
    ghost use Rattle.kb_picture.specs.WellFormed.{variables_seen};

    ghost Value = { Picture };

    ghost view = { λ g. g.picture };

    ghost invariant = { λ g. g.variables ≡ length (variables_seen g.picture) };
}

impl GrowingPicture {
    /// The picture of which nothing is known.
    pub fn new(alloc: Global) -> GrowingPicture
        ensures { result ≡ record { seen = []; locs = []; objects = [] } }
    {
        GrowingPicture {
            picture: Picture::new(alloc),
            variables: 0,
        }
    }

    /// Another picture that equals this one.
    pub fn copied(&self, alloc: Global) -> Result<GrowingPicture, NoMemory>
        ensures { IfOk result (λ copy. copy ≡ self.now) }
    {
        let picture = self.picture.copied(alloc)?;
        Ok(GrowingPicture {
            picture,
            variables: self.variables,
        })
    }

    /// The picture.
    pub fn get(&self) -> &Picture
        ensures { result.now ≡ self.now }
    {
        &self.picture
    }

    /// Sees a slot as the next variable.
    #[tactic(auto, unfolding(crate::specs::Growth::after_int_read))]
    pub fn see_variable(&mut self, slot: Origin) -> Result<(), NoMemory>
        ensures { OnOk result (self.new ≡ after_int_read self.old slot) }
    {
        let variable = self.variables;
        self.see(slot, Seen::Int(variable))
    }

    /// Sees a slot so.
    #[tactic(auto, using(crate::proofs::GrowingLaws::variables_more))]
    pub fn see(&mut self, slot: Origin, seen: Seen) -> Result<(), NoMemory>
        ensures { OnOk result (self.new ≡ with_seen self.old (slot, seen)) }
    {
        let variables = with_variable(self.variables, seen)?;
        self.picture.seen.push((slot, seen))?;
        self.variables = variables;
        Ok(())
    }

    /// Adds a location.
    pub fn add_location(&mut self, location: PicLoc) -> Result<(), NoMemory>
        ensures { OnOk result (self.new ≡ with_loc self.old location) }
    {
        self.picture.locs.push(location)?;
        Ok(())
    }

    /// Lets the location of that number stand so; its origin stays. One that is not there is left out. It takes constant time.
    pub fn set_standing(&mut self, number: u32, standing: Standing)
        ensures { self.new ≡ with_standing self.old number standing }
    {
        let Some(loc) = self.picture.locs.as_slice().get(number as usize) else {
            return;
        };
        let bound = PicLoc {
            origin: loc.origin,
            standing,
        };
        self.picture.locs.set(number as usize, bound);
    }

    /// Adds an object.
    pub fn add_object(&mut self, object: PicObject) -> Result<(), NoMemory>
        ensures { OnOk result (self.new ≡ with_object self.old object) }
    {
        self.picture.objects.push(object)?;
        Ok(())
    }

    /// Adds an object that is found where the location of that number was read. Of one that is not there none is found.
    pub fn add_object_at(
        &mut self,
        number: u32,
        kind: ExactType,
        length: Length,
    ) -> Result<(), NoMemory>
        ensures { OnOk result (self.new ≡ with_fresh_at self.old number kind length) }
    {
        let Some(loc) = self.picture.locs.as_slice().get(number as usize) else {
            return Ok(());
        };
        let origin = loc.origin;
        self.add_object(PicObject {
            kind,
            length,
            origin,
        })
    }
}

// How many variables there are with that of one slot more, which is seen so.
fn with_variable(variables: u32, seen: Seen) -> Result<u32, NoMemory>
    ensures { IfOk result (λ more. more ≡ variables + length (cons_option (variable_seen seen) [])) }
{
    match seen {
        Seen::Int(_) => match variables.checked_add(1) {
            Some(more) => Ok(more),
            None => Err(NoMemory),
        },
        Seen::Null | Seen::Obj(_) | Seen::Loc(_) | Seen::Beyond => Ok(variables),
    }
}
