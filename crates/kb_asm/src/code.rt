//! The code of a body.

ghost use Rattle.std.specs.Prelude.{◌≡◌, ◌≤◌, ◌+◌, None, true, false, length, IsTrue, IfOk, OnOk};
ghost use Rattle.std.specs.List.{AllByRecursion};
ghost use Rattle.kb_grammar.specs.Grammar.{Each};
ghost use Rattle.kb_asm_body.specs.Layout.{instr_size, line_size};
ghost use Rattle.kb_asm_body.specs.Faults.{is_faulty_instr, is_faulty, fault_from};
ghost use Rattle.kb_asm_pool.specs.Needs.{operand_needs, body_needs, line_needs};
ghost use Rattle.kb_asm_pool.specs.Entries.{entries_of};
ghost use Rattle.kb_asm.specs.Needs.{have, have_all, IsWhole};
ghost use Rattle.kb_asm.specs.Instructions.{SpellsAsked, EncodesLine};
ghost use Rattle.kb_asm.specs.Class.{IsCodeOf};
ghost use Rattle.kb_asm.specs.Working.{labels_of, Appends, AreNear, AreFew, AreCounted, IsFit, IsFitLine, IsSoundBody};

use crate::NoMemory;
use crate::instr::Body;
use kb_asm_body::layout_of;
use kb_asm_pool::Items;
use kb_asm_text::{BodyLine, Line, Operand, Sizes};
use kb_classfile::Code;
use kb_rows::Row;
use kb_writer::write_instr;
use std::alloc::Global;

impl Body<'_> {
    /// Appends an instruction.
    fn push_instr(
        &self,
        code: &mut Vec<u8>,
        pool: &mut Items,
        alloc: Global,
        op: u8,
        operand: &Operand,
    ) -> Result<(), NoMemory>
        requires near { AreNear (labels_of self.now.layout.now) }
        requires few { length code.old.items + instr_size op operand.now (length code.old.items) ≤ 65535 }
        requires sound { is_faulty_instr (labels_of self.now.layout.now) true op operand.now (length code.old.items) ≡ false }
        requires whole { IsWhole pool.old.says }
        requires there { IsTrue (have pool.old.says (operand_needs op operand.now)) }
        requires fit { IsFit pool.old.says op operand.now }
        ensures same { OnOk result (pool.new.says ≡ pool.old.says) }
        ensures bytes { OnOk result (Appends (SpellsAsked (entries_of pool.old.says) (labels_of self.now.layout.now) op operand.now) code.old.items code.new.items) }
    {
        let at = code.len() as u32;
        let written = self.instr(pool, alloc, op, operand)?;
        write_instr(code, &written, at)
    }

    /// Appends the bytes of a line of a body.
    fn push_body(
        &self,
        code: &mut Vec<u8>,
        pool: &mut Items,
        alloc: Global,
        line: &BodyLine,
    ) -> Result<(), NoMemory>
        requires near { AreNear (labels_of self.now.layout.now) }
        requires few { length code.old.items + line_size (Line.Body line.now) (length code.old.items) ≤ 65535 }
        requires sound { is_faulty (labels_of self.now.layout.now) true (Line.Body line.now) (length code.old.items) ≡ false }
        requires whole { IsWhole pool.old.says }
        requires there { IsTrue (have pool.old.says (body_needs line.now)) }
        requires fit { IsFitLine pool.old.says (Line.Body line.now) }
        ensures same { OnOk result (pool.new.says ≡ pool.old.says) }
        ensures bytes { OnOk result (Appends (EncodesLine (entries_of pool.old.says) (labels_of self.now.layout.now) (Line.Body line.now)) code.old.items code.new.items) }
    {
        match line {
            BodyLine::Instr(op, operand) => self.push_instr(code, pool, alloc, *op, operand),
            BodyLine::Raw(byte) => {
                code.push(*byte)?;
                Ok(())
            }
            BodyLine::Label(_) => Ok(()),
            BodyLine::Catch(_) => Ok(()),
        }
    }

    /// Appends the bytes of a line; one that is of no body has none.
    fn push_line(
        &self,
        code: &mut Vec<u8>,
        pool: &mut Items,
        alloc: Global,
        line: &Line,
    ) -> Result<(), NoMemory>
        requires near { AreNear (labels_of self.now.layout.now) }
        requires few { length code.old.items + line_size line.now (length code.old.items) ≤ 65535 }
        requires sound { is_faulty (labels_of self.now.layout.now) true line.now (length code.old.items) ≡ false }
        requires whole { IsWhole pool.old.says }
        requires there { IsTrue (have pool.old.says (line_needs line.now)) }
        requires fit { IsFitLine pool.old.says line.now }
        ensures same { OnOk result (pool.new.says ≡ pool.old.says) }
        ensures bytes { OnOk result (Appends (EncodesLine (entries_of pool.old.says) (labels_of self.now.layout.now) line.now) code.old.items code.new.items) }
    {
        match line {
            Line::Body(body) => self.push_body(code, pool, alloc, body),
            _ => Ok(()),
        }
    }

    /// The bytes of the code.
    fn bytes(&self, pool: &mut Items, alloc: Global, lines: &[Line]) -> Result<Vec<u8>, NoMemory>
        requires near { AreNear (labels_of self.now.layout.now) }
        requires sound { fault_from (labels_of self.now.layout.now) true 0 0 lines.now ≡ None }
        requires whole { IsWhole pool.old.says }
        requires there { IsTrue (have_all pool.old.says lines.now) }
        requires fit { AllByRecursion (IsFitLine pool.old.says) lines.now }
        ensures same { OnOk result (pool.new.says ≡ pool.old.says) }
        ensures bytes { IfOk result (λ bytes. Each (EncodesLine (entries_of pool.old.says) (labels_of self.now.layout.now)) lines.now 0 bytes.items) }
        ensures few { IfOk result (λ bytes. AreFew bytes.items) }
    {
        let mut code = Vec::new(alloc);
        let mut rest = lines;
        while let [line, others @ ..] = rest {
            self.push_line(&mut code, pool, alloc, line)?;
            rest = others;
        }
        Ok(code)
    }
}

/// The code of a body.
pub(crate) fn code_of(
    pool: &mut Items,
    alloc: Global,
    sizes: Sizes,
    lines: &[Line],
) -> Result<Code, NoMemory>
    requires sound { IsSoundBody lines.now }
    requires whole { IsWhole pool.old.says }
    requires there { IsTrue (have_all pool.old.says lines.now) }
    requires fit { AllByRecursion (IsFitLine pool.old.says) lines.now }
    ensures same { OnOk result (pool.new.says ≡ pool.old.says) }
    ensures code { IfOk result (IsCodeOf (entries_of pool.old.says) sizes lines.now) }
    ensures few { IfOk result (λ code. AreFew code.bytes × AreCounted code.handlers) }
{
    let layout = layout_of(alloc, lines)?;
    let body = Body { layout: &layout };
    let bytes = body.bytes(pool, alloc, lines)?;
    let handlers = body.handlers(pool, alloc, lines)?;
    Ok(Code {
        max_stack: sizes.max_stack,
        max_locals: sizes.max_locals,
        bytes: Row::from_vec(bytes),
        handlers,
    })
}
