//! What is asked of a world whatever values are: the instruction at an offset, the limits of a method, the method to which a call
//! comes, the handler that takes an exception, which arrays an instruction takes, the value with which a slot begins.
//!
//! `specs/` of kb_semantics says what each is.
#![tactic(auto)]

mod arrays;
mod calls;
mod defaults;
mod fields;
mod handlers;
mod listing;
mod methods;
mod targets;
mod typed;

pub use arrays::{place_in_array, takes_component};
pub use calls::{Callee, callee_at, is_equals, selected_at};
pub use defaults::{default_of, default_values};
pub use fields::has_field;
pub use handlers::{handler_among, handler_at, is_taken_by};
pub use listing::{Found, behind, instruction_at};
pub use methods::{declaring_class, max_locals, max_stack};
pub use std::alloc::AllocError as NoMemory;
pub use targets::target_of;
pub use typed::Typed;
