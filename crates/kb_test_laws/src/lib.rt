//! Which names of worlds and of runs have texts: definitions and laws alone.
//!
//! `specs/Texts.antt` has the definitions, `specs/Laws.antt` the two laws: the classes of class files have names and types that
//! have texts, and so has what a run leaves.
#![tactic(auto)]

mod laws;

pub use laws::{runs_have_names, worlds_have_names};
