//! What instructions compute of values, and what they find in classes and heaps: the parts of the concrete machine that change
//! nothing.
//!
//! `specs/` of kb_semantics says what each is.
#![tactic(auto)]

mod arithmetic;
mod arrays;
mod calls;
mod choices;
mod kinds;
mod objects;
mod types;

pub use arithmetic::{holds, int2_value, narrowed};
pub use arrays::{Loaded, Stored, len_at, loaded_at, new_array, stored_at};
pub use calls::{platform_result, receiver_of};
pub use choices::{is_null, is_wanted, same_reference, switch_target, table_target};
pub use kinds::{are_of_kinds, are_with_receiver, is_of_kind, kept, value_of};
pub use objects::{field_of, new_object};
pub use std::alloc::AllocError as NoMemory;
pub use types::{is_instance, truth, type_of_exact};
