//! The words of the command line, and what they order.
//!
//! `specs/` has the definitions: the options and their values (`Options`), how options and files stand behind a command
//! (`Settings`), and the order or the one fault of a list of words (`Orders`).
#![tactic(auto)]

mod options;
mod orders;
mod settings;
mod word;

pub use kb_picture::Init;
pub use kb_rows::Row;
pub use options::{OptionName, Range};
pub use orders::{
    Command, Job, Order, WordFault, default_bounds, read_words, words_have_one_order,
};
pub use settings::Setting;
pub use word::Word;
