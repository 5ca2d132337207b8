//! What a walk over the code that a target reaches looks up and keeps.
//!
//! Marks of a world's universe: whether a type is of it, and whether an array of it is a subtype of another type, are told by
//! looks into tables in place of walks over the universe. `specs/Marks.antt` says what the marks are; the universe itself is
//! that of kb_classes' `specs/Universe.antt`.
//!
//! What can be wrong with instructions (`specs/Faults.antt`); which use an instruction makes of the entry that it names
//! (`specs/Uses.antt`), and which uses have been looked at; and which methods have been found (`specs/Found.antt`).
#![tactic(auto)]

mod calls;
mod elements;
mod faults;
mod found;
mod looked;
mod marking;
mod marks;
mod refusing;

pub use calls::{Call, EntryCall, takes};
pub use faults::{Fault, class_in_type, component_of_code, is_deepest, primitive_fault};
pub use found::Found;
pub use looked::{Asked, Looked, Use, use_of};
pub use marks::Marks;
pub use refusing::{initialised, missing, no_method};
