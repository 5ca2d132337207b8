//! Resolution and selection by tables: what the entries of constant pools stand for, found once for each class and each member
//! that it names; and which method is called where the receiver is of a class.
//!
//! `specs/Lookup.antt` has both as searches over the lists of linked classes, `specs/Tables.antt` the tables that answer in
//! their place.
#![tactic(auto)]

mod chains;
mod fields;
mod known;
mod left_out;
mod methods;
mod receivers;
mod resolved;
mod resolving;
mod selection;
mod signatures;
mod special;
mod tables;

pub use chains::{chain_at, slots_at, stands_at};
pub use fields::slot_in;
pub use left_out::has_left_out;
pub use methods::{OBJECT, is_open};
pub use receivers::receivers_of;
pub use resolved::{Resolved, resolved_at};
pub use resolving::rows_of;
pub use selection::{Selection, selected_by, selection_of};
