//! From texts to class files.

ghost use Rattle.std.specs.Prelude.{◌≡◌, [], IfOk, IfErr};
ghost use Rattle.kb_asm_check.specs.Faults.{Refuses};
ghost use Rattle.kb_asm.specs.Class.{IsAssembled};
ghost use Rattle.kb_asm.specs.Needs.{IsWhole, says_of};
ghost use Rattle.kb_asm.specs.Working.{AreText, IsFileOf, AreBytesOf};

use crate::NoMemory;
use crate::class::file_of;
use crate::numbers::code_name_of;
use crate::pool::fill_pool;
use kb_asm_check::{TextRefusal, read_text};
use kb_asm_pool::Items;
use kb_asm_text::Line;
use kb_classfile::ClassFile;
use kb_writer::write_class;
use std::alloc::Global;

/// The bytes of the class file of the lines.
fn written(
    pool: &mut Items,
    alloc: Global,
    lines: &[Line],
    file: &ClassFile,
) -> Result<Vec<u8>, NoMemory>
    requires says { pool.old.says ≡ says_of lines.now }
    requires whole { IsWhole pool.old.says }
    requires whose { IsFileOf pool.old.says lines.now file.now }
    ensures { IfOk result (λ bytes. AreBytesOf lines.now bytes.items) }
{
    let code_name = code_name_of(pool, alloc)?;
    write_class(alloc, file, code_name)
}

/// The bytes of the class of the lines of a text, over a pool without entries, which is filled.
fn bytes_over(pool: &mut Items, alloc: Global, lines: &[Line]) -> Result<Vec<u8>, NoMemory>
    requires text { AreText lines.now }
    requires empty { pool.old.says ≡ [] }
    ensures { IfOk result (λ bytes. AreBytesOf lines.now bytes.items) }
{
    fill_pool(pool, alloc, lines)?;
    let file = file_of(pool, alloc, lines)?;
    written(pool, alloc, lines, &file)
}

/// The bytes of the class of the lines of a text.
fn bytes_of(alloc: Global, lines: &[Line]) -> Result<Vec<u8>, NoMemory>
    requires { AreText lines.now }
    ensures { IfOk result (λ bytes. AreBytesOf lines.now bytes.items) }
{
    let mut pool = Items::new(alloc);
    bytes_over(&mut pool, alloc, lines)
}

/// The class file of an assembler text.
pub fn assemble(alloc: Global, text: &[u8]) -> Result<Vec<u8>, TextRefusal>
    // The text is that of a class, and the bytes spell the class file of that class.
    ensures assembled { IfOk result (λ bytes. IsAssembled text.now bytes.items) }
    // The text is that of no class, and this is its first line that does not fit.
    ensures refused { IfErr result (Refuses text.now) }
{
    let lines = match read_text(alloc, text) {
        Ok(lines) => lines,
        Err(refusal) => return Err(refusal),
    };
    match bytes_of(alloc, lines.as_slice()) {
        Ok(bytes) => Ok(bytes),
        Err(NoMemory) => Err(TextRefusal::NoMemory),
    }
}
