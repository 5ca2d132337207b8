//! What calls and `new` do to a state: the method that is called and its operands, what a platform method answers at once, and
//! the object that is made.
//!
//! `specs/Calls.antt` and `specs/Making.antt` say it, each as the counterpart of the machine's effect.
#![tactic(auto)]

mod calls;
mod making;
mod operands;
mod platform;

pub use calls::{Call, invoke};
pub use making::make_object;
pub use std::alloc::AllocError as NoMemory;
