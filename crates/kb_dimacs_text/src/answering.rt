//! The top call: all that the program does between its input and its output.
ghost use Rattle.std.specs.Prelude.{◌≡◌, ◌<◌, ◌^◌, ℕ, Bool, IfOk, map, string_bytes};
ghost use Rattle.kb_chain.specs.Cnf.{Cnf};
ghost use Rattle.kb_chain.specs.Clause.{Satisfies};
ghost use Rattle.kb_dimacs_text.specs.Dimacs.{IsDimacs};
ghost use Rattle.kb_dimacs_text.specs.Answers.{AnswersWords, AnswersInput, AnswersFormula};

use crate::NoMemory;
use crate::answer::{Answer, answer_solved};
use crate::read::read_dimacs;
use crate::refusal::Refusal;
use crate::request::{Request, read_request};
use crate::status::Status;
use crate::texts::{counts_text, refusal_text, usage_text};
use kb_chain::Formula;
use kb_sat::solve_counted;
use std::alloc::Global;

/// Solves the formula that the input spells, as the words ask for it. The text is whole before any of it is written.
pub fn dimacs(alloc: Global, words: &[String], input: &[u8]) -> Result<Answer, NoMemory>
    ensures answers { IfOk result (λ a. AnswersWords (map string_bytes words.now) input.now a.status (string_bytes a.text)) }

    // Nothing satisfies a formula that is said to be unsatisfiable.
    ensures unsatisfiable { IfOk result (λ a. a.status ≡ Status.Unsatisfiable →
        (formula : Cnf) → IsDimacs formula input.now → (assignment : ℕ → Bool) → Satisfies assignment formula.clauses → ⊥) }
{
    match read_request(words) {
        Some(request) => answer_input(alloc, request, input),
        None => Ok(Answer {
            status: Status::Refused,
            text: usage_text(alloc)?,
        }),
    }
}

/// What the program answers to its input.
fn answer_input(alloc: Global, request: Request, input: &[u8]) -> Result<Answer, NoMemory>
    requires { 0 < request.budget }
    ensures { IfOk result (λ a. AnswersInput request input.now a.status (string_bytes a.text)) }
{
    match read_dimacs(alloc, input) {
        Ok(formula) => answer_formula(alloc, request, &formula),
        Err(Refusal::Line(line, cause)) => Ok(Answer {
            status: Status::Refused,
            text: refusal_text(alloc, line, cause)?,
        }),
        Err(Refusal::NoMemory) => Err(NoMemory),
    }
}

/// What the program answers to a formula.
fn answer_formula(alloc: Global, request: Request, formula: &Formula) -> Result<Answer, NoMemory>
    requires budget { 0 < request.budget }
    requires small { formula.now.vars < 2 ^ 31 }
    ensures { IfOk result (λ a. AnswersFormula request formula.now a.status (string_bytes a.text)) }
{
    let (solved, counts) = solve_counted(alloc, formula, request.budget)?;
    let answer = answer_solved(alloc, formula, &solved, request.check)?;
    let mut text = counts_text(alloc, counts)?;
    text.push_str(answer.text.as_str())?;
    Ok(Answer {
        status: answer.status,
        text,
    })
}
