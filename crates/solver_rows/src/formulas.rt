//! Formulas and logs from their texts.

use kb_chain::{Chain, Clause, Formula, Lit, Log};
use kb_log_text::LineRefusal;
use kb_table::{RowResult, RowStop, kept, read_int};
use std::alloc::Global;

/// The formula over so many variables with the clauses of a text: the numbers of their literals, and 0 behind each clause.
pub fn read_formula(alloc: Global, vars: u32, text: &str) -> RowResult<Formula> {
    let mut formula = Formula::new(alloc, vars);
    add_clauses(alloc, &mut formula, text)?;
    Ok(formula)
}

fn add_clauses(alloc: Global, formula: &mut Formula, text: &str) -> RowResult<()> {
    let mut literals = Vec::new(alloc);
    for word in text.split(' ') {
        take_number(alloc, formula, &mut literals, read_int(word)?)?;
    }
    Ok(())
}

fn take_number(
    alloc: Global,
    formula: &mut Formula,
    literals: &mut Vec<Lit>,
    number: i32,
) -> RowResult<()> {
    match Lit::from_number(number) {
        Some(literal) => Ok(literals.push(literal)?),
        None => {
            add_clause(alloc, formula, literals.as_slice())?;
            literals.clear();
            Ok(())
        }
    }
}

fn add_clause(alloc: Global, formula: &mut Formula, literals: &[Lit]) -> RowResult<()> {
    let clause = kept(Clause::from_literals(alloc, literals))?;
    if !clause.is_within(formula.vars()) {
        return Err(RowStop::Malformed);
    }
    kept(formula.add(clause))
}

/// The log of a text: chains with `/` between two, each the number of its first clause and then a pivot and a number for each
/// step; `-` is the log without entries.
pub fn read_log(alloc: Global, text: &str) -> RowResult<Log> {
    let lines = learn_lines(alloc, text)?;
    match kb_log_text::read_log(alloc, lines.as_bytes()) {
        Ok(log) => Ok(log),
        Err(LineRefusal::BadLine(_)) => Err(RowStop::Malformed),
        Err(LineRefusal::Stopped(_)) => Err(RowStop::NoMemory),
    }
}

fn learn_lines(alloc: Global, text: &str) -> RowResult<String> {
    let mut lines = String::new(alloc);
    if text != "-" {
        for chain in text.split('/') {
            writeln!(lines, "learn {chain}")?;
        }
    }
    Ok(lines)
}

pub fn read_chain(alloc: Global, text: &str) -> RowResult<Chain> {
    let line = format!(in alloc; "learn {text}")?;
    match kept(kb_log_text::read_chain(alloc, line.as_bytes()))? {
        Some(chain) => Ok(chain),
        None => Err(RowStop::Malformed),
    }
}
