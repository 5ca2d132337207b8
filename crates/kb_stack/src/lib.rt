//! Frames of the concrete machine: operand stacks, locals, and what instructions take off a stack.
//!
//! `specs/` of kb_semantics says what each is.
#![tactic(auto)]

mod call;
mod callers;
mod frame;
mod locals;
mod operands;
mod value_stack;

pub use call::Call;
pub use callers::Callers;
pub use frame::Frame;
pub use std::alloc::AllocError as NoMemory;
