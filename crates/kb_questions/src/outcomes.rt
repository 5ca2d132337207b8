//! What searches come to, each checked by other means than the search.

use kb_chain::{Formula, Log, Verdict, check_fresh, check_refutation};
use kb_table::{RowResult, kept};
use std::alloc::Global;

/// What a search comes to.
#[derive(Clone, Copy, PartialEq, Eq, Drop)]
pub enum Outcome {
    /// A model that meets what is asked.
    Model,
    /// A refutation that is good.
    Refuted,
    /// A log of so many entries, all fresh.
    Open(usize),
    /// Anything else.
    Wrong,
}

impl Outcome {
    /// Appends the outcome in words.
    pub fn append_to(self, into: &mut String) -> RowResult<()> {
        match self {
            Outcome::Model => Ok(into.push_str("model")?),
            Outcome::Refuted => Ok(into.push_str("refuted")?),
            Outcome::Open(entries) => Ok(write!(into, "open with {entries}")?),
            Outcome::Wrong => Ok(into.push_str("wrong")?),
        }
    }
}

/// What a refutation comes to, by the check of logs.
pub fn judged_refutation(alloc: Global, formula: &Formula, log: &Log) -> RowResult<Outcome> {
    match kept(check_refutation(alloc, formula, log))? {
        Verdict::Good => Ok(Outcome::Refuted),
        Verdict::Bad(_) => Ok(Outcome::Wrong),
    }
}

/// What an undecided search comes to, by the check of fresh logs.
pub fn judged_open(alloc: Global, formula: &Formula, log: &Log) -> RowResult<Outcome> {
    match kept(check_fresh(alloc, formula, log))? {
        Verdict::Good => Ok(Outcome::Open(log.entries.as_slice().len())),
        Verdict::Bad(_) => Ok(Outcome::Wrong),
    }
}
