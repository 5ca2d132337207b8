//! The constant pools of assembler texts: which entries the lines of a class need, and their numbers.
//!
//! `specs/Says.antt` has what entries say, and `specs/Needs.antt` which of them a line needs.
#![tactic(auto)]

mod items;
mod laws;
mod needs;

pub use items::{Items, ReferenceKind};
pub use kb_texts::Texts;
pub use laws::no_entry_twice;
pub use needs::{
    add_alone, add_call, add_constant, add_field, add_needs, add_ref, method_bytes, type_bytes,
};
pub use std::alloc::AllocError as NoMemory;
