//! The rules that one class file keeps (JVMS 8 section 4.8, format checking), as far as they are about names, descriptors and
//! members.
//!
//! `format_fault` tells the first that is broken. `specs/Rules.antt` has the rules, and `specs/Faults.antt` their order.
#![tactic(auto)]

mod fault;
mod format;
mod laws;
mod members;
mod numbers;
mod place;
mod texts;
mod unmet;
mod verdicts;

pub use fault::FormatFault;
pub use format::format_fault;
pub use kb_names::NoMemory;
pub use laws::{one_fault, places_are_met};
