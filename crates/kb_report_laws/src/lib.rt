//! No two reports have one text.
//!
//! `specs/OneText.antt` has the law, `specs/Example.antt` a report of which it speaks. The ranges of numbers that it asks for
//! are those of the types of the code: [`kb_report_text::report_text`] tells them of each report that it writes.
#![tactic(auto)]

mod law;

pub use law::{example_is_a_report, own_report_text, reports_have_own_texts};
