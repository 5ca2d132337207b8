//! Circuits over words of 32 bits, as clauses.
#![tactic(auto)]

mod builder;
mod division;
mod gate;
mod multiplication;
mod shift;
mod words;

pub use builder::Builder;
pub use std::alloc::AllocError as NoMemory;
pub use words::truth_bits;
