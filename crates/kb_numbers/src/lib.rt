//! Numbers of members: each different text has one number, and a member is two numbers, that of its name and that of its type's
//! descriptor. The texts are those of the constant pools of some classes, the names and descriptors of the methods of classes
//! without a file, and the names of the classes in the types of methods. Each text of each constant pool is looked up once; the
//! type of each method is followed by its parts, so that a type that is asked for later is found without its descriptor.
//!
//! `specs/Numbers.antt` says which numbers stand for what, `specs/Pairs.antt` what tables of them tell, `specs/Types.antt` and
//! `specs/Typed.antt` how the parts of a type tell the number of its descriptor.
#![tactic(auto)]

mod class_numbers;
mod numbering;
mod pairs;
mod parts;
mod pool;
mod signatures;
mod types;
mod written;

pub use class_numbers::ClassNumbers;
pub use numbering::{Numbers, numbers_of};
pub use pairs::{EntryNumbers, Pair, add_place};
pub use parts::{Part, Parts, Symbol};
pub use signatures::first_methods;
pub use types::Types;
