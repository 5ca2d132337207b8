//! Paths and inputs that rows ask about, for the two programs of rows on unknown heaps: where the picture of a path lies in an
//! input, whether the input is an instance, how its run ends by the path and by the machine, and the input that a path carries.
//!
//! Nothing is said of what the lines come to: the programs write it, and the gate compares that.
#![tactic(auto)]

mod answers;
mod asked;
mod emitting;
mod texts;

pub use asked::{Asked, add_line, nothing_asked};
pub use texts::{add, add_exact, add_itself};
