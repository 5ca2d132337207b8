//! Writing the Code attribute (JVMS 8 section 4.7.3).

ghost use Rattle.std.specs.Prelude.{◌≡◌, ◌<◌, ◌^◌, ◌++◌, Some, length, OnOk};
ghost use Rattle.std.specs.List.{AllByRecursion, flat_map};
ghost use Rattle.kb_writer.specs.Files.{HasSizes, IfCode, FitsHandler, FitsCode, table, sized, handler_bytes, content_bytes, code_bytes};

use crate::NoMemory;
use crate::numbers::{push_count, push_run, push_u2, push_u4};
use kb_classfile::{Code, Handler};

/// A row of the handler table.
#[tactic(auto, unfolding(crate::specs::Files::handler_bytes))]
fn push_handler(into: &mut Vec<u8>, handler: Handler) -> Result<(), NoMemory>
    ensures bytes { OnOk result (into.new.items ≡ into.old.items ++ handler_bytes handler) }
    ensures numbers { OnOk result (FitsHandler handler) }
{
    push_u2(into, handler.start)?;
    push_u2(into, handler.end)?;
    push_u2(into, handler.target)?;
    push_u2(into, handler.catch)
}

/// The rows of the handler table.
fn push_rows(into: &mut Vec<u8>, handlers: &[Handler]) -> Result<(), NoMemory>
    ensures bytes { OnOk result (into.new.items ≡ into.old.items ++ flat_map handler_bytes handlers.now) }
    ensures numbers { OnOk result (AllByRecursion FitsHandler handlers.now) }
{
    let mut rest = handlers;
    while let [first, others @ ..] = rest {
        push_handler(into, *first)?;
        rest = others;
    }
    Ok(())
}

/// How many bytes the content of a Code attribute takes.
#[tactic(auto, using(crate::proofs::FileLaws::content_length))]
fn content_size(code: &Code) -> u32
    requires { HasSizes code.now }
    ensures { result ≡ length (content_bytes code.now) }
{
    12 + code.bytes.as_slice().len() as u32 + 8 * code.handlers.as_slice().len() as u32
}

/// The code, behind its length.
fn push_instructions(into: &mut Vec<u8>, bytes: &[u8]) -> Result<(), NoMemory>
    requires { length bytes.now < 2 ^ 16 }
    ensures { OnOk result (into.new.items ≡ into.old.items ++ sized bytes.now) }
{
    push_u4(into, bytes.len() as u32)?;
    push_run(into, bytes)
}

/// The handlers, behind their count.
fn push_handlers(into: &mut Vec<u8>, handlers: &[Handler]) -> Result<(), NoMemory>
    requires { length handlers.now < 2 ^ 16 }
    ensures bytes { OnOk result (into.new.items ≡ into.old.items ++ table handler_bytes handlers.now) }
    ensures numbers { OnOk result (AllByRecursion FitsHandler handlers.now) }
{
    push_count(into, handlers.len())?;
    push_rows(into, handlers)
}

/// The content of a Code attribute, which has no attributes.
#[tactic(auto, unfolding(crate::specs::Files::content_bytes))]
fn push_content(into: &mut Vec<u8>, code: &Code) -> Result<(), NoMemory>
    requires { HasSizes code.now }
    ensures bytes { OnOk result (into.new.items ≡ into.old.items ++ content_bytes code.now) }
    ensures numbers { OnOk result (FitsCode code.now) }
{
    push_u2(into, code.max_stack)?;
    push_u2(into, code.max_locals)?;
    push_instructions(into, code.bytes.as_slice())?;
    push_handlers(into, code.handlers.as_slice())?;
    push_u2(into, 0)
}

/// The attributes of a method with this code.
#[tactic(auto, unfolding(crate::specs::Files::code_bytes))]
fn push_code(into: &mut Vec<u8>, code: &Code, code_name: u16) -> Result<(), NoMemory>
    requires { HasSizes code.now }
    ensures bytes { OnOk result (into.new.items ≡ into.old.items ++ code_bytes code_name (Some code.now)) }
    ensures numbers { OnOk result (FitsCode code.now) }
{
    push_u2(into, 1)?;
    push_u2(into, code_name)?;
    push_u4(into, content_size(code))?;
    push_content(into, code)
}

/// The attributes of a method: its code, if it has some.
#[tactic(auto, unfolding(crate::specs::Files::code_bytes))]
pub fn push_method_code(
    into: &mut Vec<u8>,
    code: &Option<Code>,
    code_name: u16,
) -> Result<(), NoMemory>
    requires { IfCode HasSizes code.now }
    ensures bytes { OnOk result (into.new.items ≡ into.old.items ++ code_bytes code_name code.now) }
    ensures numbers { OnOk result (IfCode FitsCode code.now) }
{
    match code {
        Some(code) => push_code(into, code, code_name),
        None => push_u2(into, 0),
    }
}
