//! Formulas in the DIMACS format are read, and what the solver says of them is written: all of the program kb_dimacs but where
//! its input comes from and where its output goes.
#![tactic(auto)]

mod answer;
mod answering;
mod body;
mod front;
mod lines;
mod numbers;
mod read;
mod refusal;
mod request;
mod running;
mod status;
mod texts;

pub use answer::{Answer, answer_solved};
pub use answering::dimacs;
pub use read::read_dimacs;
pub use refusal::{Cause, Refusal, is_refused_once};
pub use request::{Request, read_request};
pub use running::run;
pub use status::Status;
pub use std::alloc::AllocError as NoMemory;
