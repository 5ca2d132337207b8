//! Symbolic states: a run over all inputs of a path at once.
//!
//! `specs/State.antt` has what a state is, `specs/StandsFor.antt` of which configurations of the machine it speaks, and
//! `specs/Paths.antt` the path of one.
#![tactic(auto)]

mod beginning;
mod bindings;
mod calls;
mod first_reads;
mod frame;
mod heaps;
mod laws;
mod lent;
mod making;
mod next;
mod path;
mod state;
mod truths;
mod value;

pub use frame::FrameAt;
pub use kb_kinds::{is_int_instruction, is_reference, variable_kind};
pub use kb_numbered::PathStop;
pub use laws::{paths_are_well_formed, states_begin, states_bind, values_resolve};
pub use state::{SymObject, SymState, start};
pub use std::alloc::AllocError as NoMemory;
pub use value::{Cell, Outcome, SymValue};
