//! The lines of logs.

use kb_chain::Chain;
use kb_log_text::read_chain;
use kb_table::{RowResult, RowStop, kept};
use std::alloc::Global;

/// The chain of a line `learn`, by what stands behind that word.
pub fn read_learnt(alloc: Global, text: &str) -> RowResult<Chain> {
    let line = format!(in alloc; "learn {text}")?;
    match kept(read_chain(alloc, line.as_bytes()))? {
        Some(chain) => Ok(chain),
        None => Err(RowStop::Malformed),
    }
}
