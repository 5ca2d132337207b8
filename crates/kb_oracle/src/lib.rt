//! Asking whether conditions on terms can hold: what every oracle owes, the solver as an oracle, and one for tests.
#![tactic(auto)]

mod answer;
mod law;
mod oracle;
mod search;
mod solver_oracle;
mod told_oracle;

pub use answer::{Answer, OracleStop};
pub use law::{
    larger_pools_ask_the_same, models_are_not_refuted, models_meet_every_pool,
    refuted_are_never_met,
};
pub use oracle::Oracle;
pub use solver_oracle::SolverOracle;
pub(crate) use std::alloc::AllocError as NoMemory;
pub use told_oracle::{Told, ToldOracle};
