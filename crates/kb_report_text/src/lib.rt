//! The text of a report.
//!
//! `specs/` has the definitions: how slots are written (`Slots`), the lines of a path's block (`Blocks`), and the whole
//! (`Report`); what the table of fields of one name keeps (`Tables`); and the ranges of a report's numbers (`Ranges`). The other
//! words of a line are those of kb_path_words.
#![tactic(auto)]

mod blocks;
mod kinds;
mod leaves;
mod naming;
mod ranges;
mod report;
mod slots;

pub use kb_rows::Row;
pub use kinds::LeafKind;
pub use naming::NamedWorld;
pub use ranges::tell_report;
pub use report::{Report, report_text, write_kinds};
pub use slots::write_field;
pub use std::alloc::AllocError as NoMemory;
