//! Pictures: what is known of the first heap of an unknown input.
ghost use Rattle.std.specs.Prelude.{◌≡◌, [], IfOk};

use crate::NoMemory;
use kb_names::ExactType;
use kb_rows::Row;
use std::alloc::Global;

/// A slot of an input's first heap.
#[derive(Clone, Copy, PartialEq, Eq)]
pub enum Origin {
    /// The argument of that number, the receiver first.
    Arg(u32),
    /// Of an object of the picture the slot of that number.
    Field(u32, u32),
    /// Of an array of the picture the element at that index.
    Element(u32, u32),
}

/// What a slot is seen to hold.
#[derive(Clone, Copy, PartialEq, Eq)]
pub enum Seen {
    /// The int or boolean of the variable of that number.
    Int(u32),
    Null,
    /// Some object: the location of that number.
    Loc(u32),
    /// The object of the picture of that number.
    Obj(u32),
    /// An object that is none of the picture's, and would lie deeper than the bound on inputs allows.
    Beyond,
}

/// Which object a location is.
#[derive(Clone, Copy, PartialEq, Eq)]
pub enum Standing {
    /// Any object: it was not looked into yet.
    Open,
    /// The object of the picture of that number.
    Obj(u32),
    /// None of the picture's, as for a slot.
    Beyond,
}

/// The length of an object of the picture.
#[derive(Clone, Copy, PartialEq, Eq)]
pub enum Length {
    /// It is no array.
    Plain,
    Is(u32),
    /// It is longer than that.
    Above(u32),
}

/// An object of the picture: its exact type, its length, and the slot in which it was found.
#[derive(Drop)]
pub struct PicObject {
    pub kind: ExactType,
    pub length: Length,
    pub origin: Origin,
}

impl PicObject {
    /// Another object that equals this one.
    pub fn copied(&self, alloc: Global) -> Result<PicObject, NoMemory>
        ensures { IfOk result (λ copy. copy ≡ self.now) }
    {
        let kind = self.kind.copied(alloc)?;
        Ok(PicObject {
            kind,
            length: self.length,
            origin: self.origin,
        })
    }
}

// Another row of equal objects.
fn copied_objects(alloc: Global, objects: &[PicObject]) -> Result<Row<PicObject>, NoMemory>
    ensures { IfOk result (λ copy. copy ≡ objects.now) }
{
    let mut copy = Row::new(alloc);
    for object in objects {
        copy.push(object.copied(alloc)?)?;
    }
    Ok(copy)
}

/// A location: the slot that it was read from, and which object it is.
#[derive(Clone, Copy, PartialEq, Eq)]
pub struct PicLoc {
    pub origin: Origin,
    pub standing: Standing,
}

/// What is known of an input's first heap: the slots that were read, in the order of reading, the locations, in the same
/// order, and the objects, in the order in which they were chosen.
#[derive(Drop)]
pub struct Picture {
    pub seen: Row<(Origin, Seen)>,
    pub locs: Row<PicLoc>,
    pub objects: Row<PicObject>,
}

impl Picture {
    /// The picture of which nothing is known. It takes no memory.
    pub fn new(alloc: Global) -> Picture
        ensures { result ≡ record { seen = []; locs = []; objects = [] } }
    {
        Picture {
            seen: Row::new(alloc),
            locs: Row::new(alloc),
            objects: Row::new(alloc),
        }
    }

    /// Another picture that equals this one.
    pub fn copied(&self, alloc: Global) -> Result<Picture, NoMemory>
        ensures { IfOk result (λ copy. copy ≡ self.now) }
    {
        let seen = self.seen.as_slice().to_vec(alloc)?;
        let locs = self.locs.as_slice().to_vec(alloc)?;
        let objects = copied_objects(alloc, self.objects.as_slice())?;
        Ok(Picture {
            seen: Row::from_vec(seen),
            locs: Row::from_vec(locs),
            objects,
        })
    }
}

/// For each object and each location of a picture the object of an input that it is.
#[derive(Drop)]
pub struct PlaceLists {
    pub objects: Row<u32>,
    pub locs: Row<u32>,
}
