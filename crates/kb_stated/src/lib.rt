//! What the heap of a symbolic state states: the slots that its run has written, and the objects that it has made.
#![tactic(auto)]

mod stated;

pub use stated::{made, writes};
