//! Class files and the instructions of their code, as bytes.
//!
//! What is written spells what it was made of, by the definitions of kb_classfile and kb_code: reading it gives that back.
//! That is one direction. Entries for Long, Float and Double, minor versions, and attributes other than Code are never written,
//! so not each class file that is read can be. `specs/Files.antt` and `specs/Instructions.antt` have the bytes.
#![tactic(auto)]

mod class_writer;
mod code_writer;
mod instr_writer;
mod numbers;
mod pool_writer;
mod switch_writer;
mod written;

pub use class_writer::write_class;
pub use instr_writer::write_instr;
pub use kb_rows::Row;
pub use std::alloc::AllocError as NoMemory;
pub use written::{Written, padding_behind};
