//! Texts by numbers: of some texts each different one has one number, from 0 in the order in which they came.
#![tactic(auto)]

mod texts;

pub use std::alloc::AllocError as NoMemory;
pub use texts::Texts;
