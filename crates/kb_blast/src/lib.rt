//! Conditions on terms as a formula in conjunctive normal form, and its assignments as values of the program's variables.
#![tactic(auto)]

mod conditions;
mod fitness;
mod law;
mod listing;
mod reading;
mod terms;
mod variables;

pub use conditions::{Blasted, blast};
pub use fitness::can_blast;
pub use law::formula_says_conditions;
pub use reading::read_back;
pub use std::alloc::AllocError as NoMemory;
