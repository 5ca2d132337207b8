//! The world of classes: what is linked, with resolution, selection, and what a method reaches.
//!
//! Resolution and selection are those of kb_resolution (`specs/Lookup.antt`). kb_universe `specs/Faults.antt`,
//! `specs/FieldFaults.antt` and `specs/Calls.antt` say what is wrong with an instruction, `specs/Reach.antt` the methods that a
//! target reaches and the first thing there that cannot be carried out.
#![tactic(auto)]

mod calls;
mod checks;
mod faults;
mod laws;
mod linking;
mod lookup;
mod mentions;
mod reach;
mod running;
mod walking;
mod world;

pub use kb_link::{FieldSlot, LinkRefusal, What};
pub use kb_universe::component_of_code;
pub use laws::{one_answer, one_reached};
pub use linking::link;
pub use world::World;
