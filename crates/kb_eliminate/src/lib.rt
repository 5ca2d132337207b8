//! Bounded variable elimination, and models restored with values of the variables that went.
#![tactic(auto)]

mod elimination;
mod occurrences;
mod resolvents;
mod restoring;

pub use elimination::{Eliminated, EliminationBounds, eliminate};
pub use restoring::restored;
