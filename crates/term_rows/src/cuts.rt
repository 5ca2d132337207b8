//! Pools that are cut to their first terms, and that grow again.

use crate::pools::append_node;
use crate::terms::{Query, add_pieces, no_conditions};
use kb_table::{RowResult, RowStop, read_number};
use kb_terms::Pool;
use std::alloc::Global;

/// Appends what steps leave of a pool that is empty at first, each behind `; `: a number cuts it to so many terms; kinds of
/// variables with terms make those that are not there, and the terms are told with the numbers that they have.
pub fn append_cuts(alloc: Global, text: &str, into: &mut String) -> RowResult<()> {
    let mut query = no_conditions(alloc)?;
    into.push_str("empty")?;
    for step in text.split("; ") {
        append_step(alloc, query.get_mut(), step, into)?;
    }
    Ok(())
}

fn append_step(alloc: Global, query: &mut Query, step: &str, into: &mut String) -> RowResult<()> {
    into.push_str("; ")?;
    match step.split_once(' ') {
        Some((kinds, terms)) => append_made(alloc, query, kinds, terms, into)?,
        None => cut(&mut query.pool, read_number(step)?)?,
    }
    let (terms, variables) = (query.pool.terms(), query.pool.variables());
    Ok(write!(into, "{terms} terms, {variables} variables")?)
}

fn append_made(
    alloc: Global,
    query: &mut Query,
    kinds: &str,
    terms: &str,
    into: &mut String,
) -> RowResult<()> {
    query.when.clear();
    add_pieces(alloc, query, kinds, terms)?;
    for (term, _) in query.when.as_slice() {
        append_node(&query.pool, *term, into)?;
    }
    Ok(())
}

/// Cuts a pool to its first so many terms, if it has as many.
fn cut(pool: &mut Pool, terms: u32) -> RowResult<()> {
    if terms > pool.terms() {
        return Err(RowStop::Malformed);
    }
    pool.cut_to(terms);
    Ok(())
}
