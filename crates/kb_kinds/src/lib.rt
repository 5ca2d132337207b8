//! What a step needs to know of arguments and instructions before it looks at a state: of which types they are, and whether they
//! are ints or references.
#![tactic(auto)]

mod arguments;
mod instructions;

pub use arguments::{Argument, argument_at, is_reference, variable_kind};
pub use instructions::is_int_instruction;
