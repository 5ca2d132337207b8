//! The names of classes in descriptors.
ghost use Rattle.std.specs.Prelude.{◌≡◌, [], ◌∷◌, ◌++◌, IfOk};
ghost use Rattle.kb_names.specs.Stages.{class_start, class_read, class_step, some_bytes};

use crate::name_texts::NameStage;
use crate::stages::Stage;
use crate::{NoMemory, Row};
use std::alloc::Global;

/// How the names of classes stand in a descriptor.
#[derive(Clone, Copy, PartialEq, Eq)]
pub enum Spelling {
    /// As they are, in a class file: no name has one of the bytes `.`, `;` and `[` (JVMS 8 section 4.2.1).
    Raw,
    /// As in texts, where a name may have any bytes.
    Escaped,
}

// How far a class's name is read.
#[derive(Drop)]
pub(crate) enum ClassStage {
    RawName(Row<u8>),
    EscapedName(NameStage),
}

impl Stage for ClassStage {
    type Value = Row<u8>;

    ghost step = { class_step };

    ghost read = { class_read };

    #[tactic(auto, unfolding(crate::specs::Stages::class_step))]
    fn next(self, alloc: Global, byte: u8) -> Result<Option<ClassStage>, NoMemory> {
        match self {
            ClassStage::RawName(name) => match byte {
                b'.' | b';' | b'[' => Ok(None),
                _ => Ok(Some(ClassStage::RawName(name.with(byte)?))),
            },
            ClassStage::EscapedName(stage) => match stage.next(alloc, byte)? {
                Some(next) => Ok(Some(ClassStage::EscapedName(next))),
                None => Ok(None),
            },
        }
    }

    // A class's name is not empty.
    fn whole(self) -> Option<Row<u8>> {
        match self {
            ClassStage::RawName(name) => unless_empty(name),
            ClassStage::EscapedName(stage) => unless_empty(stage.whole()?),
        }
    }
}

// Where a class's name begins.
pub(crate) fn class_begins(alloc: Global, spelling: Spelling) -> ClassStage
    ensures { result ≡ class_start spelling }
{
    match spelling {
        Spelling::Raw => ClassStage::RawName(Row::new(alloc)),
        Spelling::Escaped => ClassStage::EscapedName(NameStage::Plain(Row::new(alloc))),
    }
}

pub(crate) fn unless_empty(name: Row<u8>) -> Option<Row<u8>>
    ensures { result ≡ some_bytes name }
{
    if name.as_slice().is_empty() {
        return None;
    }
    Some(name)
}
