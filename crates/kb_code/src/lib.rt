//! Instructions of the Java virtual machine, and the listing of a method's code.
//!
//! `specs/Listing.antt` says how code spells its instructions, apart from the reader.
#![tactic(auto)]

mod decoding;
mod form;
mod instruction;
mod item_reader;
mod keyed;
mod laws;
mod listing;
mod name;
mod opcode;
mod placing;
mod reader;
mod refusal;
mod showing;
mod switch_reader;

pub use decoding::decode;
pub use instruction::{Cond, Elem, Instr, IntCut, IntOp};
pub use kb_rows::Row;
pub use keyed::{Keyed, are_rising, is_table};
pub use laws::{keys_rise, one_listing};
pub use listing::{Handler, Listing, MOST_CODE};
pub use name::op_name;
pub use opcode::{GOTO_W, INVOKEINTERFACE, LDC};
pub use refusal::CodeRefusal;
