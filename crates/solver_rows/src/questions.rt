//! Which question a row asks.

use crate::dimacs_texts::{append_cnf, append_full, append_run, append_said, append_words};
use crate::heuristics::{append_intervals, append_levels, append_order, append_ranks};
use crate::log_lines::{append_log, append_log_lines};
use crate::searches::{
    append_cut, append_eliminate, append_fresh, append_needed, append_refutation, append_resolvent,
    append_search,
};
use kb_chain::Formula;
use kb_questions::{append_clauses, append_size};
use kb_table::RowResult;
use std::alloc::Global;

/// Appends the answer to a question that tells what it is about, or to one about a formula.
pub fn append_of_itself(
    alloc: Global,
    formula: &Formula,
    question: &str,
    words: &str,
    into: &mut String,
) -> RowResult<()> {
    match question {
        "lines" => append_log_lines(alloc, words, into),
        "log" => append_log(alloc, words, into),
        "order" => append_order(alloc, words, into),
        "intervals" => append_intervals(words, into),
        "ranks" => append_ranks(alloc, words, into),
        "levels" => append_levels(alloc, words, into),
        "cnf" => append_cnf(alloc, words, into),
        "words" => append_words(alloc, words, into),
        "run" => append_run(alloc, words, into),
        "full" => append_full(alloc, words, into),
        _ => append_of_formula(alloc, formula, question, words, into),
    }
}

/// Appends the answer to a question about a formula.
fn append_of_formula(
    alloc: Global,
    formula: &Formula,
    question: &str,
    words: &str,
    into: &mut String,
) -> RowResult<()> {
    match question {
        "size" => append_size(formula, into),
        "clauses" => append_clauses(formula, words, into),
        "refutation" => append_refutation(alloc, formula, words, into),
        "fresh" => append_fresh(alloc, formula, words, into),
        "resolvent" => append_resolvent(alloc, formula, words, into),
        "cut" => append_cut(alloc, formula, words, into),
        "needed" => append_needed(alloc, formula, words, into),
        "eliminate" => append_eliminate(alloc, formula, into),
        "said" => append_said(alloc, formula, words, into),
        _ => append_search(alloc, formula, question, words, into),
    }
}
