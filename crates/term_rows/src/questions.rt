//! Which question a row asks.

use crate::asking::{append_alike, append_ask, append_computes, append_values};
use crate::cuts::append_cuts;
use crate::pools::{append_applied, append_chain, append_numbers, append_pool};
use crate::subjects::Subjects;
use crate::telling::append_told;
use kb_chain::Formula;
use kb_questions::{append_clauses, append_size};
use kb_table::{RowResult, RowStop};
use std::alloc::Global;

/// Appends the answer to a question about conditions, or to another one.
pub fn append_of_conditions(
    alloc: Global,
    subjects: &Subjects,
    question: &str,
    words: &str,
    into: &mut String,
) -> RowResult<()> {
    let current = subjects.current.get();
    match question {
        "ask" => append_ask(alloc, current, words, into),
        "values" => append_values(alloc, current, words, into),
        "alike" => append_alike(alloc, subjects, words, into),
        "told" => append_told(alloc, subjects, words, into),
        "computes" => append_computes(alloc, words, into),
        _ => append_of_terms(alloc, &current.formula, question, words, into),
    }
}

/// Appends the answer to a question about terms that it spells, or to one about a formula.
fn append_of_terms(
    alloc: Global,
    formula: &Formula,
    question: &str,
    words: &str,
    into: &mut String,
) -> RowResult<()> {
    match question {
        "pool" => append_pool(alloc, words, into),
        "apply" => append_applied(alloc, words, into),
        "chain" => append_chain(alloc, words, into),
        "numbers" => append_numbers(alloc, words, into),
        "cuts" => append_cuts(alloc, words, into),
        "size" => append_size(formula, into),
        "clauses" => append_clauses(formula, words, into),
        _ => Err(RowStop::Malformed),
    }
}
