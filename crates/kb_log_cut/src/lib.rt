//! Logs without the entries that their last one does not need (proof trimming: Wetzler, Heule and Hunt, 2014).
#![tactic(auto)]

mod cutting;
mod marking;

pub use cutting::cut;
pub use kb_chain::NoMemory;
