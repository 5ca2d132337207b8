//! Tests of methods, written as texts and read back.
#![tactic(auto)]

mod final_heap;
mod fronts;
mod reading;
mod script;
mod settling;
mod test_case;
mod writing;

pub use final_heap::{FinalHeap, Objects};
pub use reading::{TestRefusal, read_tests};
pub use std::alloc::AllocError as NoMemory;
pub use test_case::Test;
pub use writing::{tests_have_one_text, write_run, write_test};
