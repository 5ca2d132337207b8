//! Piles: lists that grow and shrink at one end, which contracts see from there down.
#![tactic(auto)]

mod pile;

pub use pile::Pile;
