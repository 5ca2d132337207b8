//! What the program reads from and writes to: shelves of files and sinks of bytes. Each has one form
//! over the system and one in memory, whose bytes and faults are told to the last one. Besides, the
//! words of the command line.
#![tactic(auto)]

mod memory_shelf;
mod memory_sink;
mod reading;
mod real;
mod shelves;
mod sinks;
#[cfg(test)]
mod tests;
mod words;

pub use memory_shelf::MemoryShelf;
pub use memory_sink::MemorySink;
pub use reading::{Watched, read_up_to, read_whole};
pub use real::{FileShelf, OutSink};
pub use shelves::{Shelf, ShelfStop};
pub use sinks::{Sink, SinkFailed, send_all};
pub use std::alloc::AllocError as NoMemory;
pub use words::{WordsStop, command_words};
