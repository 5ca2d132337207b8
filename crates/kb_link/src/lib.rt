//! The world of classes: the given classes and those of the platform, linked.
//!
//! `specs/Links.antt` says what the world of class files is, and why there is none. What it cites is said in kb_classes: the
//! rules of superclasses and subtypes over lists of classes, slots, the universe and literals. What stands above each class is
//! found here: its superclass and interfaces, the chain of its superclasses, and all that it is a subtype of; and the first
//! class whose superclasses and interfaces break a rule, or split a package.
#![tactic(auto)]

mod chains;
mod circles;
mod claims;
mod direct;
mod laws;
mod linked;
mod linking;
mod loading;
mod packages;
mod subtypes;
mod supers;

pub use kb_classes::{FieldSlot, LinkRefusal, What, has_slot, is_concrete};
pub use laws::{linked_or_refused, one_reason, one_world};
pub use linked::Linked;
pub use linking::link;
pub use subtypes::is_above_arrays;
