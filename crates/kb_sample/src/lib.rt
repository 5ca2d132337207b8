//! The sample: a class of one static method over four ints, for each number of blocks.
//!
//! `specs/` has the definition: the lines of its assembler text (`Sample`).
#![tactic(auto)]

mod text;

pub use std::alloc::AllocError as NoMemory;
pub use text::sample_text;
