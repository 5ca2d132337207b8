//! Names and types of the Java virtual machine, the descriptors that spell types, and the spelling of names
//! in texts.
#![tactic(auto)]

mod class_names;
mod descriptors;
mod name;
mod name_texts;
mod same;
mod shared;
mod stages;
mod targets;
mod types;
mod writing;

pub use class_names::Spelling;
pub use descriptors::{
    NameRefusal, read_method_type, read_method_type_as, read_type, read_type_as,
};
pub use kb_rows::Row;
pub use name::Name;
pub use name_texts::{NameTextRefusal, read_name, write_name};
pub use same::{Same, are_same};
pub use shared::SharedRow;
pub use std::alloc::AllocError as NoMemory;
pub use targets::{TargetRefusal, read_target, write_target};
pub use types::{Component, ExactType, JType, MethodType, Target};
pub use writing::{write_method_type, write_type};
