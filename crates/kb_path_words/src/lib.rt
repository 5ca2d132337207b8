//! The words of reports that need no world, most of which diagrams have too.
//!
//! `specs/` has the definitions: how the parts of a line are written (`Words`), the decisions of a path and the first line of its
//! leaf (`Lines`), the ranges of their numbers (`Ranges`), which texts the readers take for which words
//! (`Spelled`), and slots by their words alone (`Slots`).
#![tactic(auto)]

mod law;
mod lines;
mod reading;
mod reading_lines;
mod slots;
mod text;
mod words;

pub use law::each_word_is_of_one;
pub use lines::{write_decisions, write_leaf_line};
pub use reading::{
    read_length, read_operand, read_out, read_seen, read_standing, read_term, read_value,
};
pub use reading_lines::{read_cut, read_decisions, read_ending};
pub use slots::{FieldWord, SlotWord, read_slot};
pub use std::alloc::AllocError as NoMemory;
pub use text::Text;
pub use words::{
    write_length, write_numbered, write_out, write_seen, write_standing, write_term, write_value,
};
