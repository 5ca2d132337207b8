//! The input that a path carries: one that has the path's picture, with given values for its variables.
//!
//! `specs/Emitted.antt` says which input it is, `specs/Laws.antt` what it is to the path: an instance, and type-correct.
#![tactic(auto)]

mod arguments;
mod fitting;
mod held;
mod input;
mod laws;
mod objects;

pub use input::input_of;
pub use laws::{inputs_are_instances, inputs_are_of_pictures};
pub use std::alloc::AllocError as NoMemory;
