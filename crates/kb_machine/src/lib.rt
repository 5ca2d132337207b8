//! The concrete machine: runs of methods over inputs, one instruction after the other.
//!
//! `specs/` of kb_semantics says what a run is.
#![tactic(auto)]

mod arrays;
mod branching;
mod calls;
mod constants;
mod fields;
mod instructions;
mod ints;
mod machine;
mod names;
mod pool;
mod rearranging;
mod returns;
mod state;
mod throwing;
mod turn;
mod types;
mod unwinding;
mod variables;
mod ways;

pub use machine::{first_heap, run};
pub use std::alloc::AllocError as NoMemory;
