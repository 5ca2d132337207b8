//! Pieces of work done by several threads, with each answer in the place of its piece.
//!
//! `specs/` has the definitions: the answers of pieces (`Mapped`), and how workers take turns (`Turns`).
#![tactic(auto)]

mod dealing;
mod gate;
mod laws;
mod mapping;
mod merging;
mod queue;

pub use gate::{Gate, OpenGate};
pub use laws::mapped_is_map;
pub use mapping::map_in_order;
pub use std::alloc::AllocError as NoMemory;
