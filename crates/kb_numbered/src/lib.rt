//! Conditions on terms of a pool, with a table of their truths, and the path that is made of a picture, of conditions and of a
//! leaf.
//!
//! A path's terms are those that the conditions and the leaf meet, in the order of a walk from them. Until a path is made, conditions
//! and leaf name terms by their numbers in the pool; `specs/Numbered.antt` says how the path names them.
#![tactic(auto)]

mod conditions;
mod leaf;
mod numbered;
mod path;
mod roots;
mod terms;

pub use conditions::Conditions;
pub use path::{PathStop, numbered_path};
pub use std::alloc::AllocError as NoMemory;
