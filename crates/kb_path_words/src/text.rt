//! A text that grows.
ghost use Rattle.std.specs.Prelude.{◌≡◌, ◌∷◌, [], ◌++◌, OnOk};
ghost use Rattle.std.specs.Fmt.{decimal, signed_decimal};
ghost use Rattle.kb_grammar.specs.Lines.{lines_text};
ghost use Rattle.kb_heap_words.specs.Words.{exact_text, place_text};
ghost use Rattle.kb_log_text.specs.Lines.{learn_lines};
ghost use Rattle.kb_names.specs.Escapes.{name_text};
ghost use Rattle.kb_names.specs.Descriptors.{type_text};
ghost use Rattle.kb_names.specs.Targets.{target_text};

use crate::NoMemory;
use kb_chain::Log;
use kb_heap::Place;
use kb_heap_words::{write_exact, write_place};
use kb_log_text::write_log;
use kb_names::{ExactType, JType, Name, Spelling, Target, write_name, write_target, write_type};
use std::alloc::Global;
use std::marker::Model;

/// The bytes of a text. Each call appends; after memory ran out the text is only dropped.
#[derive(Drop)]
pub struct Text {
    alloc: Global,
    bytes: Vec<u8>,
}

impl Model for Text {
    ghost use Rattle.std.specs.Prelude.{ℕ, List};

    ghost Value = { List ℕ };

    ghost view = { λ text. text.bytes.items };
}

impl Text {
    pub fn new(alloc: Global) -> Text
        ensures { result ≡ [] }
    {
        Text {
            alloc,
            bytes: Vec::new(alloc),
        }
    }

    pub fn into_bytes(self) -> Vec<u8>
        ensures { result.items ≡ self }
    {
        self.bytes
    }

    pub fn put(&mut self, piece: &str) -> Result<(), NoMemory>
        ensures { OnOk result (self.new ≡ self.old ++ piece.now) }
    {
        self.bytes.extend_from_slice(piece.as_bytes())?;
        Ok(())
    }

    pub fn end_line(&mut self) -> Result<(), NoMemory>
        ensures { OnOk result (self.new ≡ self.old ++ 10 ∷ []) }
    {
        self.bytes.extend_from_slice(b"\n".as_slice())?;
        Ok(())
    }

    pub fn number(&mut self, number: u32) -> Result<(), NoMemory>
        ensures { OnOk result (self.new ≡ self.old ++ decimal number) }
    {
        let digits = format!(in self.alloc; "{number}")?;
        self.bytes.extend_from_slice(digits.as_bytes())?;
        Ok(())
    }

    pub fn count(&mut self, count: usize) -> Result<(), NoMemory>
        ensures { OnOk result (self.new ≡ self.old ++ decimal count) }
    {
        let digits = format!(in self.alloc; "{count}")?;
        self.bytes.extend_from_slice(digits.as_bytes())?;
        Ok(())
    }

    pub fn int(&mut self, value: i32) -> Result<(), NoMemory>
        ensures { OnOk result (self.new ≡ self.old ++ signed_decimal value) }
    {
        let digits = format!(in self.alloc; "{value}")?;
        self.bytes.extend_from_slice(digits.as_bytes())?;
        Ok(())
    }

    pub fn name(&mut self, name: &Name) -> Result<(), NoMemory>
        ensures { OnOk result (self.new ≡ self.old ++ name_text name.now) }
    {
        write_name(name, &mut self.bytes)?;
        Ok(())
    }

    pub fn descriptor(&mut self, of: &JType) -> Result<(), NoMemory>
        ensures { OnOk result (self.new ≡ self.old ++ type_text Spelling.Escaped of.now) }
    {
        write_type(of, Spelling::Escaped, &mut self.bytes)?;
        Ok(())
    }

    /// A class by its name, an array by its descriptor.
    pub fn exact(&mut self, kind: &ExactType) -> Result<(), NoMemory>
        ensures { OnOk result (self.new ≡ self.old ++ exact_text kind.now) }
    {
        write_exact(kind, &mut self.bytes)?;
        Ok(())
    }

    /// An instruction by its method and its offset.
    pub fn place(&mut self, place: &Place) -> Result<(), NoMemory>
        ensures { OnOk result (self.new ≡ self.old ++ place_text place.now) }
    {
        write_place(self.alloc, place, &mut self.bytes)?;
        Ok(())
    }

    pub fn target(&mut self, target: &Target) -> Result<(), NoMemory>
        ensures { OnOk result (self.new ≡ self.old ++ target_text target.now) }
    {
        write_target(target, &mut self.bytes)?;
        Ok(())
    }

    pub fn log(&mut self, log: &Log) -> Result<(), NoMemory>
        ensures { OnOk result (self.new ≡ self.old ++ lines_text (learn_lines log.now)) }
    {
        write_log(self.alloc, log, &mut self.bytes)?;
        Ok(())
    }
}
