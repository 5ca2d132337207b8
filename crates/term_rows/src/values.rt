//! What models come to, checked by the values of terms.

use crate::terms::{Query, known};
use kb_questions::Outcome;
use kb_table::{RowResult, RowStop, kept};
use kb_terms::TermId;
use std::alloc::Global;

/// What values of the variables come to, by the values of the conditions' terms.
pub fn judged_values(alloc: Global, query: &Query, values: &[i32]) -> RowResult<Outcome> {
    for (term, truth) in query.when.as_slice() {
        if value_of(alloc, query, *term, values)? != i32::from(*truth) {
            return Ok(Outcome::Wrong);
        }
    }
    Ok(Outcome::Model)
}

/// The value of a term under values of the variables.
fn value_of(alloc: Global, query: &Query, term: TermId, values: &[i32]) -> RowResult<i32> {
    let term = known(&query.pool, term)?;
    if values.len() != query.pool.variables() as usize {
        return Err(RowStop::Malformed);
    }
    kept(query.pool.eval(alloc, term, values))
}
