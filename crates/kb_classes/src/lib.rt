//! Classes by their numbers and by their names, what they mention, tables of their members, and the words in which their world
//! is told.
//!
//! `specs/World.antt` says what a world is, `specs/Subtypes.antt` what stands above a class, `specs/Rules.antt` and
//! `specs/Split.antt` which rules classes keep together, and `specs/Refusals.antt` the first rule that they break. The types of
//! a world's universe and the texts of string constants are those of `specs/Universe.antt` and `specs/Mentions.antt`, the slots
//! of objects those of `specs/Slots.antt`.
#![tactic(auto)]

mod claim;
mod classes;
mod initialisers;
mod items;
mod literals;
mod mentions;
mod methods;
mod name_text;
mod placing;
mod refusal;
mod slots;
mod special;
mod universe;

pub use claim::ClaimKind;
pub use classes::{Classes, interface_at, shared_name};
pub use initialisers::initialised_of;
pub use items::item_at;
pub use literals::{literals_of, place_in};
pub use methods::{MethodPlace, places_of};
pub use placing::{placed_at, placings_of};
pub use refusal::{LinkRefusal, What};
pub use slots::{FieldSlot, has_slot, slots_of};
pub use special::is_special;
pub use universe::{is_concrete, universe_of};
