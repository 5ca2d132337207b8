//! What the lines of a path say of the lines that may follow: which fields there are, by their texts; which exact types an object
//! may have, and what may still lead to one that nothing leads to; and which terms conditions and values have met.
#![tactic(auto)]

mod counting;
mod fields;
mod known;
mod law;
mod objects;
mod terms;

pub use fields::{FieldAt, Fields};
pub use known::Shape;
pub use law::each_may_be_found;
pub use objects::Objects;
pub use std::alloc::AllocError as NoMemory;
pub use terms::{Terms, has_operand, is_comparison, may_be_next};
