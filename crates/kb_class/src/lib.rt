//! Classes in plain terms: what a class file says once the numbers of its constant pool are replaced by what they name, and
//! the classes of the platform.
//!
//! `specs/Loading.antt` ties a class to its file. Crates above ask for what an entry of the constant pool stands for, by its number.
#![tactic(auto)]

mod entries;
mod given;
mod handlers;
mod ids;
mod laws;
mod loaded;
mod loading;
mod members;
mod platform;
mod tables;
mod texts;

pub use entries::{Reference, ReferenceKind};
pub use given::GivenClass;
pub use handlers::handlers_of;
pub use ids::{ClassId, MethodId};
pub use laws::{code_is_whole, one_class_of};
pub use loaded::{LoadedClass, PLATFORM_CLASSES};
pub use members::{FieldInfo, MemberKind, MethodCode, MethodInfo, is_static};
