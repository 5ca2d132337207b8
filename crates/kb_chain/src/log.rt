//! Logs of chains of resolutions.

use kb_rows::Row;

/// Resolutions one after another, from the clause of number `start`: each step has a pivot variable and the number of
/// the clause that is resolved with the clause so far. Clause numbers go over the formula and then over the earlier entries.
#[derive(Clone, Drop)]
pub struct Chain {
    pub start: u32,
    pub steps: Row<(u32, u32)>,
}

/// Derived clauses, each by its chain.
#[derive(Clone, Drop)]
pub struct Log {
    pub entries: Row<Chain>,
}

/// The answer to the check of a log.
#[derive(Clone, Copy, PartialEq, Eq)]
pub enum Verdict {
    Good,
    /// The number of the first bad entry; or the number of all entries, where they are good one by one and miss the goal.
    Bad(u32),
}
