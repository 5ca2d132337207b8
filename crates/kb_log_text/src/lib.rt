//! Logs of resolutions as lines of a text. They stand in reports, in certificates, and nowhere in the solver: so the crates
//! of the logic know no texts.
#![tactic(auto)]

mod law;
mod reading;
mod writing;

pub use kb_grammar::LineRefusal;
pub use law::one_log_of_a_text;
pub use reading::{read_chain, read_log};
pub use std::alloc::AllocError as NoMemory;
pub use writing::write_log;
