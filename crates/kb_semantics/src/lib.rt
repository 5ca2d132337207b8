//! What a run of the machine is: configurations, one step, the run, and which inputs are type-correct.
//!
//! `specs/` has the definitions, over which the machine is proved and of which every exploration speaks. `proofs/` has the laws
//! of steps and runs.
#![tactic(auto)]

pub use kb_world::{FieldSlot, World};
