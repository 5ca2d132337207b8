//! The tests of a report: of each path that has ended the test that it states, as a text.
//!
//! `specs/` has the definitions: the test of an ended path and those of a report (`Tests`), and the ranges of their numbers
//! (`Ranges`).
#![tactic(auto)]

mod ranges;
mod text;

pub use std::alloc::AllocError as NoMemory;
pub use text::tests_text;
