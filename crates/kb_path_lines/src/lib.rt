//! Paths and inputs from lines, for the programs of rows: those of a path are the lines of a report and those of an input the
//! lines of a test, but that the slots of objects go by their numbers.
//!
//! Nothing is said of what the lines come to: the programs write what they make of them, and the gate compares that.
#![tactic(auto)]

mod inputs;
mod leaves;
mod logs;
mod paths;
mod pictures;
mod texts;
mod words;

pub use inputs::{add_to_input, no_input};
pub use leaves::add_carried;
pub use paths::{add_to_path, path_of};
pub use texts::split;
pub use words::{numbered, read_exact, read_location, read_out, read_slot};
