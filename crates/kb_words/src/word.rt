//! A word of the command line.
ghost use Rattle.std.specs.Prelude.{◌≡◌, IfOk};

use std::alloc::{AllocError, Global};
use std::marker::Model;

/// A word of the command line, as the name of a file. Contracts see its bytes.
#[derive(Drop)]
pub struct Word {
    text: String,
}

impl Model for Word {
    ghost use Rattle.std.specs.Prelude.{List, ℕ, string_bytes};

    ghost Value = { List ℕ };

    ghost view = { λ word. string_bytes word.text };
}

impl Word {
    /// The word of that text.
    pub fn from_text(alloc: Global, text: &str) -> Result<Word, AllocError>
        ensures { IfOk result (λ word. word ≡ text.now) }
    {
        let text = String::from_str(alloc, text)?;
        Ok(Word { text })
    }

    pub fn as_str(&self) -> &str
        ensures { result.now ≡ self.now }
    {
        self.text.as_str()
    }
}
