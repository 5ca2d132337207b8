//! The assembler: from a text of lines to a class file.
//!
//! `specs/Class.antt` says which class file means the lines of a text, and `specs/Instructions.antt` which bytes a line of a
//! body is.
#![tactic(auto)]

mod assembling;
mod class;
mod code;
mod handlers;
mod instr;
mod laws;
mod methods;
mod numbers;
mod parts;
mod pool;

pub use assembling::assemble;
pub use kb_asm_check::TextRefusal as AsmRefusal;
pub use laws::code_has_a_listing;
pub use std::alloc::AllocError as NoMemory;
