//! Refusals, and how the program ends: a status, and of a refusal one line with its number and place.
//!
//! `specs/` has the definitions: the status and the line of each refusal (`Refusals`, by `Lines`), the numbers of statuses
//! (`StatusNumber`), and lines of texts (`Texts`). The refusals of the crates below stand in `Refusal` as they are.
#![tactic(auto)]

mod lines;
mod refusal;
mod status;
mod writing;

pub use refusal::{Refusal, TextRefusal, is_refusal, refusal_status};
pub use status::Status;
pub use std::alloc::AllocError as NoMemory;
pub use writing::refusal_line;
