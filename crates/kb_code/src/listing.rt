//! The listing of a method's code, and the rows of its handler table.

use crate::instruction::Instr;
use kb_rows::Row;

/// The most bytes of a method's code (JVMS 8 section 4.7.3).
pub const MOST_CODE: usize = 65_535;

/// The instructions of a method's code with their offsets, in order.
#[derive(Drop)]
pub struct Listing {
    pub items: Row<(u32, Instr)>,
}

/// A row of a handler table (JVMS 8 section 4.7.3): offsets into the code, and the entry of the class that is caught, or 0
/// for any.
#[derive(Clone, Copy, PartialEq, Eq)]
pub struct Handler {
    pub start: u16,
    pub end: u16,
    pub target: u16,
    pub catch: u16,
}
