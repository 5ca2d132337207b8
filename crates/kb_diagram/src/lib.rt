//! Diagrams of heaps: the objects of a path before its run and after it.
//!
//! `specs/` has the definitions: what stands in a cell (`Cells`), the lines of a diagram (`Diagram`), and what a table of cells has
//! (`Tables`). The words of a line are those of kb_path_words.
#![tactic(auto)]

mod cells;
mod diagram;
mod fronts;
mod heaps;
mod made;
mod objects;

pub use diagram::{diagram_text, diagrams_text};
pub use std::alloc::AllocError as NoMemory;
