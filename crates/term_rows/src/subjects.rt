//! What rows ask about.

use crate::questions::append_of_conditions;
use crate::terms::{Query, read_query};
use kb_blast::{blast, can_blast};
use kb_chain::Formula;
use kb_questions::Subject;
use kb_rows::Held;
use kb_table::{RowResult, RowStop};
use std::alloc::Global;
use std::mem;

/// Conditions with their formula, or a formula without clauses where there are none.
#[derive(Drop)]
pub struct Asked {
    pub formula: Formula,
    pub query: Option<Held<Query>>,
}

impl Asked {
    /// The conditions that rows ask about.
    pub fn query(&self) -> RowResult<&Query> {
        match &self.query {
            Some(query) => Ok(query.get()),
            None => Err(RowStop::Malformed),
        }
    }
}

/// What the next row asks about, and what stood there before.
#[derive(Drop)]
pub struct Subjects {
    pub current: Held<Asked>,
    pub former: Held<Asked>,
}

impl Subjects {
    /// Two formulas without clauses.
    pub fn new(alloc: Global) -> RowResult<Subjects> {
        let current = without_clauses(alloc)?;
        let former = without_clauses(alloc)?;
        Ok(Subjects { current, former })
    }

    fn enter(&mut self, subject: Held<Asked>) {
        self.former = mem::replace(&mut self.current, subject);
    }

    fn append_conditions(&self, text: &str, into: &mut String) -> RowResult<()> {
        match &self.current.get().query {
            Some(_) => Ok(write!(into, ": {text}")?),
            None => Ok(write!(into, ": {text} (no comparisons)")?),
        }
    }
}

impl Subject for Subjects {
    /// `conditions` and the kinds of the variables, and then the conditions.
    fn replace(
        &mut self,
        alloc: Global,
        name: &str,
        text: &str,
        into: &mut String,
    ) -> RowResult<()> {
        into.push_str(name)?;
        let Some(kinds) = name.strip_prefix("conditions ") else {
            return Err(RowStop::Malformed);
        };
        self.enter(conditions_of(alloc, kinds, text)?);
        self.append_conditions(text, into)
    }

    fn append_answer(
        &self,
        alloc: Global,
        question: &str,
        words: &str,
        into: &mut String,
    ) -> RowResult<()> {
        append_of_conditions(alloc, self, question, words, into)
    }
}

fn without_clauses(alloc: Global) -> RowResult<Held<Asked>> {
    held(alloc, Formula::new(alloc, 0), None)
}

fn held(alloc: Global, formula: Formula, query: Option<Held<Query>>) -> RowResult<Held<Asked>> {
    Ok(Held::new(alloc, Asked { formula, query })?)
}

/// The conditions with their formula, or neither where some are no comparisons.
pub fn conditions_of(alloc: Global, kinds: &str, text: &str) -> RowResult<Held<Asked>> {
    let query = read_query(alloc, kinds, text)?;
    match formula_of_conditions(alloc, query.get())? {
        Some(formula) => held(alloc, formula, Some(query)),
        None => without_clauses(alloc),
    }
}

/// The formula of the conditions, where all are comparisons.
fn formula_of_conditions(alloc: Global, query: &Query) -> RowResult<Option<Formula>> {
    if !can_blast(&query.pool, query.when.as_slice()) {
        return Ok(None);
    }
    match blast(alloc, &query.pool, query.when.as_slice()) {
        Ok(blasted) => Ok(Some(blasted.formula)),
        Err(_) => Err(RowStop::NoMemory),
    }
}
