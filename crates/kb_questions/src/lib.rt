//! What the programs of rows about formulas and about conditions have in common: how a row sets what is asked about and how one
//! asks, clauses as texts, and what searches come to, each checked by other means than the search.
//!
//! Nothing is said of what the programs write but that a budget is at least 1: the gate compares that.
#![tactic(auto)]

mod clauses;
mod numbers;
mod outcomes;
mod rows;

pub use clauses::{append_clause, append_clauses, append_place, append_size};
pub use numbers::read_budget;
pub use outcomes::{Outcome, judged_open, judged_refutation};
pub use rows::{Subject, write_answer};
