//! What stands above what, and sets of texts in order. It knows nothing of Java.
#![tactic(auto)]

mod complete;
mod order;
mod table;
mod texts;

pub use complete::is_complete;
pub use kb_rows::Row;
pub use order::{Order, order_of};
pub use std::alloc::AllocError as NoMemory;
pub use texts::{TextSet, ordered_set};
