//! Tests are run by the machine, and each run is held against what its test says.
#![tactic(auto)]

mod checks;
mod laws;
mod replays;
mod workers;

pub use checks::{BadTest, ReplayStop, check_tests};
pub use laws::{runs_end_as_tests, tests_have_one_answer};
pub use replays::{Replayed, replay, run_test};
pub use std::alloc::AllocError as NoMemory;
pub use workers::{Ran, run_tests};
