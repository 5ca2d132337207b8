//! The list type of public structs.
//!
//! A contract would see a `Vec` with its capacity, so that two equal lists could be two values. A
//! [`Row`] is seen as the list of its items. The crates that offer it do so under its own name.
#![tactic(auto)]

mod held;
mod row;

pub use held::Held;
pub use row::Row;
