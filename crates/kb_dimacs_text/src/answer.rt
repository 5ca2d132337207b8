//! What the program answers to what the solver said.
ghost use Rattle.std.specs.Prelude.{◌≡◌, ◌<◌, ◌≤◌, ◌^◌, ℕ, IfOk, string_bytes};
ghost use Rattle.kb_chain.specs.Chains.{IsRefutation};
ghost use Rattle.kb_chain.specs.Propagation.{IsFresh};
ghost use Rattle.kb_dimacs_text.specs.Texts.{unsatisfiable_text, unknown_text};
ghost use Rattle.kb_dimacs_text.specs.Answers.{FitBits, HasGoodLog, Tells, check_answer};

use crate::NoMemory;
use crate::status::Status;
use crate::texts::{satisfiable_text, unknown_text, unsatisfiable_text};
use kb_chain::{Formula, Log, Verdict, check_fresh, check_refutation};
use kb_sat::Solved;
use std::alloc::Global;

/// A status, and the text that is written with it.
#[derive(Drop)]
pub struct Answer {
    pub status: Status,
    pub text: String,
}

/// What the program answers to what the solver said of a formula.
pub fn answer_solved(
    alloc: Global,
    formula: &Formula,
    solved: &Solved,
    check: bool,
) -> Result<Answer, NoMemory>
    requires bits { FitBits solved.now }
    requires log { HasGoodLog formula.now.clauses solved.now }
    ensures { IfOk result (λ a. Tells check solved.now a.status (string_bytes a.text)) }
{
    match solved {
        Solved::Sat(bits) => Ok(Answer {
            status: Status::Satisfiable,
            text: satisfiable_text(alloc, bits.as_slice())?,
        }),
        Solved::Unsat(log) => answer_unsatisfiable(alloc, formula, log, check),
        Solved::Undecided(log) => answer_undecided(alloc, formula, log, check),
    }
}

fn answer_unsatisfiable(
    alloc: Global,
    formula: &Formula,
    log: &Log,
    check: bool,
) -> Result<Answer, NoMemory>
    requires { IsRefutation formula.now.clauses log.now.entries }
    ensures status { IfOk result (λ a. a.status ≡ Status.Unsatisfiable) }
    ensures text { IfOk result (λ a. string_bytes a.text ≡ unsatisfiable_text log.now.entries (check_answer check)) }
{
    let checked = if check {
        Some(check_refutation(alloc, formula, log)?)
    } else {
        None
    };
    Ok(Answer {
        status: Status::Unsatisfiable,
        text: unsatisfiable_text(alloc, log.entries.as_slice(), checked)?,
    })
}

fn answer_undecided(
    alloc: Global,
    formula: &Formula,
    log: &Log,
    check: bool,
) -> Result<Answer, NoMemory>
    requires { IsFresh formula.now.clauses log.now.entries }
    ensures status { IfOk result (λ a. a.status ≡ Status.Unknown) }
    ensures text { IfOk result (λ a. string_bytes a.text ≡ unknown_text log.now.entries (check_answer check)) }
{
    let checked = if check {
        Some(check_fresh(alloc, formula, log)?)
    } else {
        None
    };
    Ok(Answer {
        status: Status::Unknown,
        text: unknown_text(alloc, log.entries.as_slice(), checked)?,
    })
}
