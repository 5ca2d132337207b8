//! A solver of formulas in conjunctive normal form that logs each clause it learns by the chain of resolutions that gives it
//! (conflict-driven clause learning: Marques-Silva and Sakallah, 1999; two watched literals: Moskewicz and others, 2001).
#![tactic(auto)]

mod analysis;
mod counts;
mod forgetting;
mod parameters;
mod search;
mod solver;

pub use counts::Counts;
pub use kb_propagate::NoMemory;
pub use solver::{Solved, solve, solve_counted, solve_from};
