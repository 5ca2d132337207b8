//! The lines of tests: what each says, wherever it stands.
//!
//! `specs/Lines.antt` says how each is spelled.
#![tactic(auto)]

mod lines;
mod outcomes;
mod words;

pub use lines::{Line, Listed, read_line};
pub use outcomes::{Outcome, RunBound};
pub use std::alloc::AllocError as NoMemory;
pub use words::{Limits, Reference, Word};
