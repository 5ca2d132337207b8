//! Terms over ints: constants, variables and operations, each a node of a pool that has no two equal nodes.
#![tactic(auto)]

mod laws;
mod listing;
mod node;
mod numbering;
mod op;
mod pool;

pub use laws::a_cut_leaves_terms;
pub use listing::{Operand, Term};
pub use node::{Node, TermId, VarKind};
pub use numbering::Numbering;
pub use op::Op;
pub use pool::Pool;
pub use std::alloc::AllocError as NoMemory;
