//! The numbers by which heuristics choose. Any others would do as far as the proof is concerned: what they change is how long a
//! search takes, and which answer of several it finds.

/// The shortest interval between restarts, in conflicts: Luby's sequence counts in it.
pub(crate) const RESTART_UNIT: u32 = 100;

/// The first interval between reductions of the clause database, in learned clauses.
pub(crate) const REDUCTION_FIRST: u32 = 1_000;

/// By how much each interval between reductions is longer than the one before, in learned clauses.
pub(crate) const REDUCTION_GROWTH: u32 = 200;

/// What the first conflict adds to the activity of a variable that takes part in it.
pub(crate) const ACTIVITY_FIRST: u64 = 1 << 20;

/// By which part of it each conflict adds more than the one before.
pub(crate) const ACTIVITY_GROWTH: u64 = 16;

/// The activity above which all are scaled down: far enough below the greatest number that no sum wraps.
pub(crate) const ACTIVITY_LIMIT: u64 = 1 << 62;

/// By how many bits activities are scaled down.
pub(crate) const ACTIVITY_SCALE: u32 = 32;

/// The least that a conflict adds to an activity after activities were scaled down.
pub(crate) const ACTIVITY_LEAST: u64 = 1 << 10;
