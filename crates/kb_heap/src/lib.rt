//! Heaps of a run, what goes into it and how it ends, and the bounds that it keeps.
#![tactic(auto)]

mod bounds;
mod ending;
mod heap;

pub use bounds::{Bound, Bounds, RunBounds};
pub use ending::{Ending, Place};
pub use heap::{Heap, HeapFull, Input, Object, Value};
pub use kb_rows::Row;
pub use std::alloc::AllocError as NoMemory;
