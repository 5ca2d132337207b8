//! The text of the assembler: its lines, and which may stand behind which.
//!
//! `specs/Lines.antt` says which line a text spells, and `specs/Texts.antt` which line may stand where.
#![tactic(auto)]

mod heads;
mod keyword;
mod line;
mod names;
mod operands;
mod place;
mod reading;
mod shape;
mod switches;
mod text;
mod tokens;
mod words;

pub use line::{
    BodyLine, Case, Catch, ClassHead, ClassRef, Constant, FieldHead, FieldName, Line, MethodHead,
    Operand, Sizes,
};
pub use place::Place;
pub use reading::read_line;
pub use std::alloc::AllocError as NoMemory;
pub use text::{Front, read_front};
