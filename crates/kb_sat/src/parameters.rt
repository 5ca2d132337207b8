//! The numbers by which the solver chooses. Any others would do as far as the proof is concerned: what they change is how long
//! a search takes, and which answer of several it finds.
use kb_eliminate::EliminationBounds;

/// The greatest budget, in entries of the log, with which the only search is the one that keeps all clauses: what a first
/// search would gain is less than it costs.
pub(crate) const SMALL_BUDGET: u32 = 4_000;

/// The most clauses of a formula whose variables are eliminated.
pub(crate) const ELIMINATION_CLAUSES: u32 = 500_000;

/// How far an elimination of variables goes: in entries of the log, pairs of clauses and clauses a variable, and literals.
pub(crate) const ELIMINATION: EliminationBounds = EliminationBounds {
    entries: 500_000,
    pairs: 400,
    side: 10,
    length: 20,
};

/// The most levels on which the literals of a learned clause stand that no reduction lets go.
pub(crate) const STAYING_LEVELS: u32 = 2;

/// The sign of a variable that had no value yet.
pub(crate) const FIRST_PHASE: bool = false;
