//! What an oracle answers.
ghost use Rattle.std.specs.Prelude.{◌≡◌, IfOk};
ghost use Rattle.kb_oracle.specs.Answers.{unsure_after, bad_after};

use crate::NoMemory;
use kb_chain::{Log, Row};
use std::alloc::AllocFailed;

/// What is known of a query.
#[derive(Clone, Drop)]
pub enum Answer {
    /// Values that make every condition true, that of variable 0 first. Variables outside the conditions are 0.
    Model(Row<i32>),
    /// A refutation of the conditions' formula.
    Refuted(Log),
    /// As many derived clauses as the budget allows, with which the conditions' formula is still open.
    Undecided(Log),
}

/// Why there is no answer.
#[derive(Clone, Copy, PartialEq, Eq)]
pub enum OracleStop {
    /// The answer of that number, among those that the oracle goes by, does not serve the query. The oracle has counted it.
    Bad(u32),
    /// Memory ran out.
    NoMemory,
}

impl From<NoMemory> for OracleStop {
    ghost use Rattle.std.specs.Prelude.{◌≡◌};
    ghost use Rattle.kb_oracle.specs.declared.answer.OracleStop.TheVariants.{NoMemory};

    ghost from_gives = { λ _ e. e ≡ NoMemory };

    fn from(_error: NoMemory) -> OracleStop {
        OracleStop::NoMemory
    }
}

impl<T: Drop> From<AllocFailed<T>> for OracleStop {
    ghost use Rattle.std.specs.Prelude.{◌≡◌};
    ghost use Rattle.kb_oracle.specs.declared.answer.OracleStop.TheVariants.{NoMemory};

    ghost from_gives = { λ _ e. e ≡ NoMemory };

    fn from(_error: AllocFailed<T>) -> OracleStop {
        OracleStop::NoMemory
    }
}

/// An answer that is the same.
pub(crate) fn copy_of(answer: &Answer) -> Result<Answer, NoMemory>
    ensures { IfOk result (λ copy. copy ≡ answer.now) }
{
    answer.clone()
}

/// The count of undecided answers after one more answer.
pub(crate) fn unsure_after(unsure: u64, answer: &Answer) -> u64
    ensures { result ≡ unsure_after unsure answer.now }
{
    match answer {
        Answer::Undecided(_) => unsure.saturating_add(1),
        Answer::Model(_) | Answer::Refuted(_) => unsure,
    }
}

/// The count of bad answers after one more stop.
pub(crate) fn bad_after(bad: u64, stop: OracleStop) -> u64
    ensures { result ≡ bad_after bad stop }
{
    match stop {
        OracleStop::Bad(_) => bad.saturating_add(1),
        OracleStop::NoMemory => bad,
    }
}
