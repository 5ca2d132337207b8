//! Clauses and sizes of formulas as texts.

use kb_chain::{Clause, Formula};
use kb_table::{RowResult, RowStop, read_number};

/// Appends the numbers of the literals, and 0.
pub fn append_clause(clause: &Clause, into: &mut String) -> RowResult<()> {
    for literal in clause.literals() {
        let number = literal.number();
        write!(into, "{number} ")?;
    }
    Ok(into.push_str("0")?)
}

/// Appends the clause, or `none`, and a space.
pub fn append_place(clause: Option<&Clause>, into: &mut String) -> RowResult<()> {
    match clause {
        Some(clause) => append_clause(clause, into)?,
        None => into.push_str("none")?,
    }
    Ok(into.push_str(" ")?)
}

/// Appends the clauses whose places are from the first number on and below the second one.
pub fn append_clauses(formula: &Formula, range: &str, into: &mut String) -> RowResult<()> {
    let Some((from, to)) = range.split_once(' ') else {
        return Err(RowStop::Malformed);
    };
    for place in read_number(from)?..read_number(to)? {
        append_place(formula.clauses().get(place as usize), into)?;
    }
    Ok(())
}

/// Appends how many variables and clauses a formula has.
pub fn append_size(formula: &Formula, into: &mut String) -> RowResult<()> {
    let (variables, clauses) = (formula.vars(), formula.clauses().len());
    Ok(write!(into, "{variables} variables, {clauses} clauses")?)
}
