//! What a reference that is read for the first time may be, and which object a location may be that is looked into.
//!
//! `specs/Choices.antt` has the alternatives and their order, `specs/Laws.antt` what they are to the inputs of a method: each
//! one takes exactly one of them.
#![tactic(auto)]

mod choices;
mod depths;
mod fresh;
mod laws;

pub use choices::{read_choices, resolve_choices};
pub use laws::{choices_fit, objects_fit, takes_exactly_one, takes_one_object};
pub use std::alloc::AllocError as NoMemory;
