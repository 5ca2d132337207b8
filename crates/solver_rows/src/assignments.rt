//! What assignments of formulas come to, checked clause by clause.

use kb_chain::{Clause, Formula, Lit};
use kb_questions::Outcome;

/// What an assignment of a formula comes to, clause by clause.
pub fn judged_bits(formula: &Formula, bits: &[bool]) -> Outcome {
    if formula.clauses().iter().all(|clause| holds(bits, clause)) {
        Outcome::Model
    } else {
        Outcome::Wrong
    }
}

fn holds(bits: &[bool], clause: &Clause) -> bool {
    clause
        .literals()
        .iter()
        .any(|literal| is_true(bits, *literal))
}

fn is_true(bits: &[bool], literal: Lit) -> bool {
    bits.get(literal.variable() as usize - 1) == Some(&literal.is_positive())
}
