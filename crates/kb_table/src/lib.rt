//! What programs of rows have in common. Such a program reads a table from the files of its `data/` and writes what each row
//! comes to; the gate compares what it writes with `stdout`, so that a row costs no proof.
#![tactic(auto)]

mod faults;
mod files;
mod rows;
mod texts;
mod words;

pub use faults::{RowResult, RowStop, kept};
pub use files::{read_file, read_files, read_table};
pub use rows::{Rows, send, write_rows};
pub use texts::{append, append_number};
pub use words::{read_int, read_number, read_numbers, read_words};
