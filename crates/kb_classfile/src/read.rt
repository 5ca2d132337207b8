//! Reading a class file.

ghost use Rattle.std.specs.Prelude.{Ok, IfOk, IfErr};
ghost use Rattle.kb_classfile.specs.Reading.{Gives, reading};
ghost use Rattle.kb_classfile.specs.Spelling.{IsClassFile};
ghost use Rattle.kb_classfile.specs.Answers.{Refuses};
ghost use Rattle.kb_classfile.specs.declared.file.ClassFile.{ClassFile};

use crate::file::ClassFile;
use crate::reader::Reader;
use crate::refusal::ClassRefusal;
use std::alloc::Global;

/// The most bytes that are read.
const MOST_BYTES: usize = 1_048_576;

/// The class file that the bytes spell (JVMS 8 chapter 4), or what is wrong with them.
///
/// Attributes other than Code are skipped, whatever is in them. Nothing is reserved for a count or a length before the
/// bytes that it speaks of were seen.
pub fn read_class(alloc: Global, bytes: &[u8]) -> Result<ClassFile, ClassRefusal>
    // What is read is spelled by the bytes, all of them.
    ensures found { IfOk result (λ file. IsClassFile file bytes.now) }
    // What is spelled is read, unless memory ran out.
    ensures only { (file : ClassFile) → IsClassFile file bytes.now → Gives (λ read. read) result (Ok file) }
    // A refusal is the first fault of the bytes, unless memory ran out.
    ensures refused { IfErr result (Refuses bytes.now) }
{
    class_of(alloc, bytes)
}

/// The class file of all of the bytes, or their first fault.
#[tactic(auto, unfolding(crate::specs::Reading::reading))]
fn class_of(alloc: Global, bytes: &[u8]) -> Result<ClassFile, ClassRefusal>
    ensures { Gives (λ file. file) result (reading bytes.now) }
{
    if MOST_BYTES < bytes.len() {
        return Err(ClassRefusal::Long);
    }
    let mut reader = Reader::new(bytes, 0);
    let file = reader.class_file(alloc)?;
    if !reader.is_empty() {
        return Err(ClassRefusal::Extra(reader.offset()));
    }
    Ok(file)
}
