//! Whether an input is type-correct for a method.
//!
//! `specs/Inputs.antt` of kb_semantics says which inputs are.
#![tactic(auto)]

mod fits;

pub use fits::fits_types;
