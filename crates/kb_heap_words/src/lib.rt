//! The words that the texts of tests and those of reports have in common: exact types, places in code, and bounds.
//!
//! `specs/Words.antt` says how each is spelled.
#![tactic(auto)]

mod law;
mod reading;
mod writing;

pub use law::each_has_its_word;
pub use reading::{read_bound, read_exact, read_place};
pub use std::alloc::AllocError as NoMemory;
pub use writing::{bound_name, write_exact, write_place};
