//! What a path of an exploration says of an input: the picture of its first heap, the conditions on its ints, and how its run
//! ends.
//!
//! `specs/` has the definitions: where the objects of a picture lie in an input (`Places`), which inputs are instances of a
//! path (`Shapes`, `Instances`), the ending and the heap that an ended path states (`Endings`), when a path is well-formed
//! (`WellFormed`), and how a picture grows (`Growth`) and keeps the types of a method (`WellTyped`).
#![tactic(auto)]

mod choice;
mod ending;
mod growing;
mod growth;
mod instance;
mod laws;
mod marks;
mod path;
mod picture;
mod placing;
mod values;

pub use choice::{Choice, Init};
pub use ending::ending_at;
pub use growing::GrowingPicture;
pub use growth::{pictures_bind, pictures_grow, pictures_grow_by_ints};
pub use instance::is_instance;
pub use kb_rows::Row;
pub use kb_terms::{Operand, Term};
pub use laws::{
    depths_are_chains, examples_are_formed, final_heaps_are_whole, fronts_have_instances,
    one_places, places_stay,
};
pub use path::{Ended, Leaf, Made, Out, Path, SymEnding, Write};
pub use picture::{Length, Origin, PicLoc, PicObject, Picture, PlaceLists, Seen, Standing};
pub use placing::places;
pub use std::alloc::AllocError as NoMemory;
