//! Class files, as JVMS 8 chapter 4 lays them out, read whole.
//!
//! `read_class` reads one class file. `specs/Spelling.antt` has the grammar, apart from the reader, and
//! `specs/Reading.antt` the order in which faults are met.
#![tactic(auto)]

mod class_reader;
mod code_reader;
mod entry_reader;
mod file;
mod laws;
mod pool;
mod pool_reader;
mod read;
mod reader;
mod refusal;

pub use file::{ClassFile, Code, Field, Handler, Method, PoolEntry, STATIC};
pub use kb_rows::Row;
pub use laws::{
    bytes_behind, cut_short, no_fault, one_class, other_magic, other_version, too_long,
};
pub use read::read_class;
pub use refusal::ClassRefusal;
pub use std::alloc::AllocError as NoMemory;
