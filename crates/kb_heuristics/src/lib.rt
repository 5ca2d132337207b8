//! What a search of the solver is free to do: which variable it decides next and with which sign, what learned clauses are worth,
//! when it restarts, when it lets clauses go. What it relies on is under proof: that a decided variable has no value, and that
//! all variables have one where none is decided.
#![tactic(auto)]

mod decision;
mod order;
mod pace;
mod parameters;
mod ranks;

pub use decision::pick;
pub use kb_propagate::NoMemory;
pub use order::ActivityOrder;
pub use pace::{Crowding, Pace};
pub use ranks::{Rank, Ranks, level_of, levels_of};
