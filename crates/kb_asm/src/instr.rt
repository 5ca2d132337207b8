//! The instructions that the lines of a body ask for.

ghost use Rattle.std.specs.Prelude.{◌≡◌, ℕ, true, false, IsTrue, IfOk, OnOk};
ghost use Rattle.std.specs.List.{AllZip, list_any};
ghost use Rattle.kb_asm_text.specs.declared.line.BodyLine.TheVariants as bodies;
ghost use Rattle.kb_asm_text.specs.declared.line.Line.TheVariants as lines;
ghost use Rattle.kb_asm_body.specs.Faults.{is_missing, is_faulty_instr};
ghost use Rattle.kb_asm_pool.specs.Needs.{constant_needs, constant_says, call_needs, call_says, operand_needs};
ghost use Rattle.kb_asm_pool.specs.Entries.{entries_of};
ghost use Rattle.kb_asm_check.specs.Limits.{ldc_says, has_few_words};
ghost use Rattle.kb_asm.specs.Needs.{have, IsWhole, AreFirst};
ghost use Rattle.kb_asm.specs.Instructions.{LeadsTo, IsPair, Names, IsConstant, IsCall, IsBranch, IsAsked};
ghost use Rattle.kb_asm.specs.Working.{labels_of, IsFit};

use crate::NoMemory;
use crate::numbers::{of_call, of_class, of_constant, of_field, of_ref};
use kb_asm_body::{Layout, argument_words};
use kb_asm_pool::Items;
use kb_asm_text::{Case, Constant, Operand};
use kb_code::{GOTO_W, INVOKEINTERFACE, LDC};
use kb_names::{Name, Target};
use kb_rows::Row;
use kb_writer::Written;
use std::alloc::Global;

/// An instruction that pushes a constant.
fn constant(pool: &mut Items, alloc: Global, op: u8, of: &Constant) -> Result<Written, NoMemory>
    requires whole { IsWhole pool.old.says }
    requires there { IsTrue (have pool.old.says (constant_needs of.now)) }
    requires first { AreFirst pool.old.says (ldc_says (lines.Body (bodies.Instr op (Operand.Constant of.now)))) }
    ensures same { OnOk result (pool.new.says ≡ pool.old.says) }
    ensures asked { IfOk result (Names (entries_of pool.old.says) (constant_says of.now) (IsConstant op)) }
{
    let number = of_constant(pool, alloc, of)?;
    if op != LDC {
        return Ok(Written::Entry(op, number));
    }
    Ok(Written::Constant(number as u8))
}

/// An instruction that calls a method.
fn call(pool: &mut Items, alloc: Global, op: u8, target: &Target) -> Result<Written, NoMemory>
    requires whole { IsWhole pool.old.says }
    requires there { IsTrue (have pool.old.says (call_needs op target.now)) }
    requires few { IsTrue (has_few_words (lines.Body (bodies.Instr op (Operand.Method target.now)))) }
    ensures same { OnOk result (pool.new.says ≡ pool.old.says) }
    ensures asked { IfOk result (Names (entries_of pool.old.says) (call_says op target.now) (IsCall op target.now.kind)) }
{
    let number = of_call(pool, alloc, op, target)?;
    if op != INVOKEINTERFACE {
        return Ok(Written::Entry(op, number));
    }
    match argument_words(&target.kind) {
        Some(words) => Ok(Written::Interface(number, words)),
        None => unreachable!(),
    }
}

/// What the lines of a body are written by.
#[derive(Clone, Copy)]
pub(crate) struct Body<'a> {
    pub(crate) layout: &'a Layout,
}

impl Body<'_> {
    /// Where a label leads.
    pub(crate) fn to(&self, label: &Name) -> u32
        requires { is_missing (labels_of self.now.layout.now) true label.now ≡ false }
        ensures { LeadsTo (labels_of self.now.layout.now) label.now result }
    {
        match self.layout.offset(label.as_slice()) {
            Some(offset) => offset,
            None => unreachable!(),
        }
    }

    fn branch(&self, op: u8, label: &Name) -> Written
        requires { is_missing (labels_of self.now.layout.now) true label.now ≡ false }
        ensures { (to : ℕ) × LeadsTo (labels_of self.now.layout.now) label.now to × IsBranch op to result }
    {
        let to = self.to(label);
        if op == GOTO_W {
            return Written::Far(op, to);
        }
        Written::Near(op, to)
    }

    fn targets(&self, alloc: Global, labels: &[Name]) -> Result<Row<u32>, NoMemory>
        requires { list_any (is_missing (labels_of self.now.layout.now) true) labels.now ≡ false }
        ensures { IfOk result (AllZip (LeadsTo (labels_of self.now.layout.now)) labels.now) }
    {
        let mut targets = Row::new(alloc);
        let mut rest = labels;
        while let [label, others @ ..] = rest {
            targets.push(self.to(label))?;
            rest = others;
        }
        Ok(targets)
    }

    fn pairs(&self, alloc: Global, cases: &[Case]) -> Result<Row<(i32, u32)>, NoMemory>
        requires { list_any (λ case. is_missing (labels_of self.now.layout.now) true case.target) cases.now ≡ false }
        ensures { IfOk result (AllZip (IsPair (labels_of self.now.layout.now)) cases.now) }
    {
        let mut pairs = Row::new(alloc);
        let mut rest = cases;
        while let [case, others @ ..] = rest {
            pairs.push((case.key, self.to(&case.target)))?;
            rest = others;
        }
        Ok(pairs)
    }

    /// The instruction of an opcode and its operand.
    pub(crate) fn instr(
        &self,
        pool: &mut Items,
        alloc: Global,
        op: u8,
        operand: &Operand,
    ) -> Result<Written, NoMemory>
        requires whole { IsWhole pool.old.says }
        requires there { IsTrue (have pool.old.says (operand_needs op operand.now)) }
        requires fit { IsFit pool.old.says op operand.now }
        requires sound { (at : ℕ) × (is_faulty_instr (labels_of self.now.layout.now) true op operand.now at ≡ false) }
        ensures same { OnOk result (pool.new.says ≡ pool.old.says) }
        ensures asked { IfOk result (IsAsked (entries_of pool.old.says) (labels_of self.now.layout.now) op operand.now) }
    {
        match operand {
            Operand::Alone => Ok(Written::Alone(op)),
            Operand::Byte(number) => Ok(Written::PushByte(*number)),
            Operand::Short(number) => Ok(Written::PushShort(*number)),
            Operand::Constant(of) => constant(pool, alloc, op, of),
            Operand::Local(local) => Ok(Written::Local(op, *local)),
            Operand::Increment(local, constant) => Ok(Written::Increment(*local, *constant)),
            Operand::Field(field) => Ok(Written::Entry(op, of_field(pool, alloc, field)?)),
            Operand::Method(target) => call(pool, alloc, op, target),
            Operand::New(name) => Ok(Written::Entry(op, of_class(pool, alloc, name.as_slice())?)),
            Operand::Type(of) => Ok(Written::Entry(op, of_ref(pool, alloc, of)?)),
            Operand::Primitive(code) => Ok(Written::Primitive(*code)),
            Operand::Target(label) => Ok(self.branch(op, label)),
            Operand::Table(low, default, targets) => {
                let default = self.to(default);
                let targets = self.targets(alloc, targets.as_slice())?;
                Ok(Written::Table(*low, default, targets))
            }
            Operand::Lookup(default, cases) => {
                let default = self.to(default);
                let pairs = self.pairs(alloc, cases.as_slice())?;
                Ok(Written::Lookup(default, pairs))
            }
        }
    }
}
