//! Which line of an assembler text is the first that does not fit.
#![tactic(auto)]

mod counts;
mod faults;
mod laws;
mod limits;
mod reading;
mod short;

pub use faults::body_of;
pub use laws::one_answer;
pub use reading::{TextRefusal, read_text};
pub use std::alloc::AllocError as NoMemory;
