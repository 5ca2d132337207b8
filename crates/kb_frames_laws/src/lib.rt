//! What the paths of states say of inputs: definitions and laws alone.
//!
//! `specs/Meant.antt` says what it is that a path means its state, `specs/Endings.antt` what the path of a state that has ended
//! says of the ending and of the heap that the run leaves.
#![tactic(auto)]

mod laws;

pub use laws::{endings_mean_their_states, paths_mean_their_states};
