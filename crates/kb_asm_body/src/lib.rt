//! The bodies of methods in assembler texts: where their instructions stand, where their labels lead, and which line is the
//! first that names a label in vain.
#![tactic(auto)]

mod faults;
mod layout;
mod memory;
mod words;

pub use faults::body_fault;
pub use layout::{Layout, layout_of};
pub use std::alloc::AllocError as NoMemory;
pub use words::argument_words;
