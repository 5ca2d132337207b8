//! Instructions, one by one (JVMS 8 section 6.5). Their targets are not looked at yet.

ghost use Rattle.std.specs.Prelude.{◌≡◌};
ghost use Rattle.kb_code.specs.Reading.{Gives, skipped, increment, wide_increment, interface_call, wide_formed, widened, formed, operands, instruction, item};

use crate::form::{Form, Loose, WideForm};
use crate::instruction::Instr;
use crate::opcode::{form_of, wide_form_of};
use crate::reader::Reader;
use crate::refusal::CodeRefusal;
use std::alloc::Global;

impl<'a> Reader<'a> {
    /// An opcode whose operands, of `n` bytes, are not looked at.
    #[tactic(auto, unfolding(crate::specs::Reading::skipped))]
    fn skipped(&mut self, from: u32, op: u8, n: usize) -> Result<Loose, CodeRefusal>
        ensures { Gives (λ loose. (loose, self.new)) result (skipped from op n self.old) }
    {
        self.run(from, n)?;
        Ok(Loose::Straight(Instr::Other(op)))
    }

    /// The operands of iinc.
    #[tactic(auto, unfolding(crate::specs::Reading::increment))]
    fn increment(&mut self, from: u32) -> Result<Loose, CodeRefusal>
        ensures { Gives (λ loose. (loose, self.new)) result (increment from self.old) }
    {
        let local = self.u1(from)?;
        let constant = self.byte(from)?;
        Ok(Loose::Straight(Instr::Inc(u16::from(local), constant)))
    }

    /// The operands of iinc behind wide.
    #[tactic(auto, unfolding(crate::specs::Reading::wide_increment))]
    fn wide_increment(&mut self, from: u32) -> Result<Loose, CodeRefusal>
        ensures { Gives (λ loose. (loose, self.new)) result (wide_increment from self.old) }
    {
        let local = self.u2(from)?;
        let constant = self.short(from)?;
        Ok(Loose::Straight(Instr::Inc(local, constant)))
    }

    /// The operands of invokeinterface; the last two bytes are not looked at.
    #[tactic(auto, unfolding(crate::specs::Reading::interface_call))]
    fn interface_call(&mut self, from: u32) -> Result<Loose, CodeRefusal>
        ensures { Gives (λ loose. (loose, self.new)) result (interface_call from self.old) }
    {
        let entry = self.u2(from)?;
        self.run(from, 2)?;
        Ok(Loose::Straight(Instr::Interface(entry)))
    }

    /// What stands behind an opcode behind wide.
    #[tactic(auto, unfolding(crate::specs::Reading::wide_formed))]
    fn wide_formed(
        &mut self,
        from: u32,
        op: u8,
        form: Option<WideForm>,
    ) -> Result<Loose, CodeRefusal>
        ensures { Gives (λ loose. (loose, self.new)) result (wide_formed from op form self.old) }
    {
        match form {
            Some(WideForm::Local(local)) => Ok(Loose::Straight(local.instr(self.u2(from)?))),
            Some(WideForm::Increment) => self.wide_increment(from),
            Some(WideForm::Skipped(other)) => self.skipped(from, other, 2),
            None => Err(CodeRefusal::Opcode(from, op)),
        }
    }

    /// What stands behind wide.
    #[tactic(auto, unfolding(crate::specs::Reading::widened))]
    fn widened(&mut self, from: u32) -> Result<Loose, CodeRefusal>
        ensures { Gives (λ loose. (loose, self.new)) result (widened from self.old) }
    {
        let op = self.u1(from)?;
        self.wide_formed(from, op, wide_form_of(op))
    }

    /// What stands behind an opcode of that form.
    #[tactic(auto, unfolding(crate::specs::Reading::formed))]
    fn formed(&mut self, alloc: Global, from: u32, form: Form) -> Result<Loose, CodeRefusal>
        ensures { Gives (λ loose. (loose, self.new)) result (formed from form self.old) }
    {
        let instr = match form {
            Form::Alone(instr) => instr,
            Form::PushByte => Instr::PushInt(self.byte(from)?),
            Form::PushShort => Instr::PushInt(self.short(from)?),
            Form::Constant => Instr::Ldc(u16::from(self.u1(from)?)),
            Form::Local(local) => local.instr(u16::from(self.u1(from)?)),
            Form::Entry(entry) => entry.instr(self.u2(from)?),
            Form::Primitive => Instr::NewPrim(self.u1(from)?),
            Form::Increment => return self.increment(from),
            Form::Interface => return self.interface_call(from),
            Form::Near(branch) => return Ok(Loose::Jump(branch, self.near(from)?)),
            Form::Far(branch) => return Ok(Loose::Jump(branch, self.far(from)?)),
            Form::Table => return self.table_switch(alloc, from),
            Form::Lookup => return self.lookup_switch(alloc, from),
            Form::Wide => return self.widened(from),
            Form::Skipped(op, n) => return self.skipped(from, op, n),
        };
        Ok(Loose::Straight(instr))
    }

    /// What stands behind the opcode of the instruction at `from`.
    #[tactic(auto, unfolding(crate::specs::Reading::operands))]
    fn operands(
        &mut self,
        alloc: Global,
        from: u32,
        op: u8,
        form: Option<Form>,
    ) -> Result<Loose, CodeRefusal>
        ensures { Gives (λ loose. (loose, self.new)) result (operands from op form self.old) }
    {
        match form {
            Some(form) => self.formed(alloc, from, form),
            None => Err(CodeRefusal::Opcode(from, op)),
        }
    }

    /// An instruction that begins at `from`.
    #[tactic(auto, unfolding(crate::specs::Reading::instruction))]
    fn instruction(&mut self, alloc: Global, from: u32) -> Result<Loose, CodeRefusal>
        ensures { Gives (λ loose. (loose, self.new)) result (instruction from self.old) }
    {
        let op = self.u1(from)?;
        self.operands(alloc, from, op, form_of(op))
    }

    /// An instruction with its offset.
    #[tactic(auto, unfolding(crate::specs::Reading::item))]
    pub fn item(&mut self, alloc: Global) -> Result<(u32, Loose), CodeRefusal>
        ensures { Gives (λ item. (item, self.new)) result (item self.old) }
    {
        let from = self.offset();
        let loose = self.instruction(alloc, from)?;
        Ok((from, loose))
    }
}
