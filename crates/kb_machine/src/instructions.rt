//! What each instruction does (JVMS 8 section 6.5).

ghost use Rattle.std.specs.Prelude.{◌≡◌, IfOk};
ghost use Rattle.kb_semantics.specs.Step.{effect};
ghost use Rattle.kb_machine.specs.Families.{IsConstant, IsLocal, IsRearranging, IsIntWork, IsBranch, IsReturn, IsArrayWork, IsObjectWork, IsCall};
ghost use Rattle.kb_machine.specs.Turns.{config_of, setting_of, told};

use crate::NoMemory;
use crate::state::State;
use crate::turn::{Step, Turn};
use kb_code::Instr;
use kb_stack::Call;

impl State {
    /// Takes up an instruction, by its family.
    #[tactic(auto, unfolding(kb_semantics::specs::Step::effect))]
    pub(crate) fn take(&mut self, turn: &Turn<'_>, instr: &Instr) -> Result<Step, NoMemory>
        ensures { IfOk result (λ step. told turn.now step self.new ≡ effect instr.now (setting_of turn.now) turn.now.next (config_of turn.now self.old)) }
    {
        match instr {
            Instr::Nop | Instr::PushNull | Instr::PushInt(_) => self.take_constant(turn, instr),
            Instr::Ldc(_) => self.take_constant(turn, instr),
            Instr::LoadInt(_) | Instr::LoadRef(_) => self.take_local(turn, instr),
            Instr::StoreInt(_) | Instr::StoreRef(_) => self.take_local(turn, instr),
            Instr::Inc(..) => self.take_local(turn, instr),
            Instr::Pop | Instr::Pop2 | Instr::Dup => self.take_rearranging(turn, instr),
            Instr::DupX1 | Instr::DupX2 | Instr::Dup2 => self.take_rearranging(turn, instr),
            Instr::Dup2X1 | Instr::Dup2X2 | Instr::Swap => self.take_rearranging(turn, instr),
            Instr::Int2(_) | Instr::Neg | Instr::Narrow(_) => self.take_int(turn, instr),
            Instr::IfInt(..) | Instr::IfPair(..) => self.take_branch(turn, instr),
            Instr::IfSame(..) | Instr::IfNull(..) => self.take_branch(turn, instr),
            Instr::Goto(_) | Instr::Table(..) => self.take_branch(turn, instr),
            Instr::Lookup(..) => self.take_branch(turn, instr),
            Instr::ReturnInt | Instr::ReturnRef => self.take_return(turn, instr),
            Instr::Return => self.take_return(turn, instr),
            Instr::LoadElem(_) | Instr::StoreElem(_) => self.take_array(turn, instr),
            Instr::NewPrim(_) | Instr::NewRefs(_) => self.take_array(turn, instr),
            Instr::Length => self.take_array(turn, instr),
            Instr::GetField(_) | Instr::PutField(_) => self.take_object(turn, instr),
            Instr::New(_) | Instr::Throw | Instr::Cast(_) => self.take_object(turn, instr),
            Instr::InstanceOf(_) => self.take_object(turn, instr),
            Instr::Virtual(_) | Instr::Special(_) => self.take_call(turn, instr),
            Instr::Static(_) | Instr::Interface(_) => self.take_call(turn, instr),
            Instr::Other(_) => Ok(self.ill_typed()),
        }
    }

    // Those that push constants, and the one that does nothing.
    #[tactic(auto, unfolding(kb_semantics::specs::Step::effect))]
    fn take_constant(&mut self, turn: &Turn<'_>, instr: &Instr) -> Result<Step, NoMemory>
        requires { IsConstant instr.now }
        ensures { IfOk result (λ step. told turn.now step self.new ≡ effect instr.now (setting_of turn.now) turn.now.next (config_of turn.now self.old)) }
    {
        match instr {
            Instr::Nop => Ok(self.nop(turn)),
            Instr::PushNull => self.push_null(turn),
            Instr::PushInt(value) => self.push_int(turn, *value),
            Instr::Ldc(entry) => self.load_constant(turn, *entry),
            _ => unreachable!(),
        }
    }

    // Those on locals.
    #[tactic(auto, unfolding(kb_semantics::specs::Step::effect))]
    fn take_local(&mut self, turn: &Turn<'_>, instr: &Instr) -> Result<Step, NoMemory>
        requires { IsLocal instr.now }
        ensures { IfOk result (λ step. told turn.now step self.new ≡ effect instr.now (setting_of turn.now) turn.now.next (config_of turn.now self.old)) }
    {
        match instr {
            Instr::LoadInt(local) => self.load_int(turn, *local),
            Instr::LoadRef(local) => self.load_reference(turn, *local),
            Instr::StoreInt(local) => self.store_int(turn, *local),
            Instr::StoreRef(local) => self.store_reference(turn, *local),
            Instr::Inc(local, by) => self.increase(turn, *local, *by),
            _ => unreachable!(),
        }
    }

    // Those that rearrange the operand stack.
    #[tactic(auto, unfolding(kb_semantics::specs::Step::effect))]
    fn take_rearranging(&mut self, turn: &Turn<'_>, instr: &Instr) -> Result<Step, NoMemory>
        requires { IsRearranging instr.now }
        ensures { IfOk result (λ step. told turn.now step self.new ≡ effect instr.now (setting_of turn.now) turn.now.next (config_of turn.now self.old)) }
    {
        match instr {
            Instr::Pop => Ok(self.pop(turn)),
            Instr::Pop2 => Ok(self.pop2(turn)),
            Instr::Dup => self.dup(turn),
            Instr::DupX1 => self.dup_x1(turn),
            Instr::DupX2 => self.dup_x2(turn),
            Instr::Dup2 => self.dup2(turn),
            Instr::Dup2X1 => self.dup2_x1(turn),
            Instr::Dup2X2 => self.dup2_x2(turn),
            Instr::Swap => self.swap(turn),
            _ => unreachable!(),
        }
    }

    // Those that compute ints.
    #[tactic(auto, unfolding(kb_semantics::specs::Step::effect))]
    fn take_int(&mut self, turn: &Turn<'_>, instr: &Instr) -> Result<Step, NoMemory>
        requires { IsIntWork instr.now }
        ensures { IfOk result (λ step. told turn.now step self.new ≡ effect instr.now (setting_of turn.now) turn.now.next (config_of turn.now self.old)) }
    {
        match instr {
            Instr::Int2(op) => self.apply_two(turn, *op),
            Instr::Neg => self.negate(turn),
            Instr::Narrow(cut) => self.narrow(turn, *cut),
            _ => unreachable!(),
        }
    }

    // Branches and switches.
    #[tactic(auto, unfolding(kb_semantics::specs::Step::effect))]
    fn take_branch(&mut self, turn: &Turn<'_>, instr: &Instr) -> Result<Step, NoMemory>
        requires { IsBranch instr.now }
        ensures { IfOk result (λ step. told turn.now step self.new ≡ effect instr.now (setting_of turn.now) turn.now.next (config_of turn.now self.old)) }
    {
        match instr {
            Instr::IfInt(cond, target) => Ok(self.if_int(turn, *cond, *target)),
            Instr::IfPair(cond, target) => Ok(self.if_ints(turn, *cond, *target)),
            Instr::IfSame(want, target) => Ok(self.if_same(turn, *want, *target)),
            Instr::IfNull(want, target) => Ok(self.if_null(turn, *want, *target)),
            Instr::Goto(target) => Ok(self.goto(turn, *target)),
            Instr::Table(low, default, targets) => {
                Ok(self.table_switch(turn, *low, *default, targets.as_slice()))
            }
            Instr::Lookup(default, keys) => {
                Ok(self.lookup_switch(turn, *default, keys.as_slice()))
            }
            _ => unreachable!(),
        }
    }

    // Returns.
    #[tactic(auto, unfolding(kb_semantics::specs::Step::effect))]
    fn take_return(&mut self, turn: &Turn<'_>, instr: &Instr) -> Result<Step, NoMemory>
        requires { IsReturn instr.now }
        ensures { IfOk result (λ step. told turn.now step self.new ≡ effect instr.now (setting_of turn.now) turn.now.next (config_of turn.now self.old)) }
    {
        match instr {
            Instr::ReturnInt => self.return_int(turn),
            Instr::ReturnRef => self.return_reference(turn),
            Instr::Return => self.return_nothing(turn),
            _ => unreachable!(),
        }
    }

    // Those on arrays.
    #[tactic(auto, unfolding(kb_semantics::specs::Step::effect))]
    fn take_array(&mut self, turn: &Turn<'_>, instr: &Instr) -> Result<Step, NoMemory>
        requires { IsArrayWork instr.now }
        ensures { IfOk result (λ step. told turn.now step self.new ≡ effect instr.now (setting_of turn.now) turn.now.next (config_of turn.now self.old)) }
    {
        match instr {
            Instr::LoadElem(elem) => self.load_element(turn, *elem),
            Instr::StoreElem(elem) => self.store_element(turn, *elem),
            Instr::NewPrim(code) => self.make_primitives(turn, *code),
            Instr::NewRefs(entry) => self.make_references(turn, *entry),
            Instr::Length => self.array_length(turn),
            _ => unreachable!(),
        }
    }

    // Those on objects.
    #[tactic(auto, unfolding(kb_semantics::specs::Step::effect))]
    fn take_object(&mut self, turn: &Turn<'_>, instr: &Instr) -> Result<Step, NoMemory>
        requires { IsObjectWork instr.now }
        ensures { IfOk result (λ step. told turn.now step self.new ≡ effect instr.now (setting_of turn.now) turn.now.next (config_of turn.now self.old)) }
    {
        match instr {
            Instr::GetField(entry) => self.get_field(turn, *entry),
            Instr::PutField(entry) => self.put_field(turn, *entry),
            Instr::New(entry) => self.make_object(turn, *entry),
            Instr::Throw => self.throw(turn),
            Instr::Cast(entry) => self.cast(turn, *entry),
            Instr::InstanceOf(entry) => self.instance_of(turn, *entry),
            _ => unreachable!(),
        }
    }

    // Calls.
    #[tactic(auto, unfolding(kb_semantics::specs::Step::effect))]
    fn take_call(&mut self, turn: &Turn<'_>, instr: &Instr) -> Result<Step, NoMemory>
        requires { IsCall instr.now }
        ensures { IfOk result (λ step. told turn.now step self.new ≡ effect instr.now (setting_of turn.now) turn.now.next (config_of turn.now self.old)) }
    {
        match instr {
            Instr::Virtual(entry) => self.invoke(turn, Call::BySelection, *entry),
            Instr::Special(entry) => self.invoke(turn, Call::Special, *entry),
            Instr::Static(entry) => self.invoke(turn, Call::Static, *entry),
            Instr::Interface(entry) => self.invoke(turn, Call::BySelection, *entry),
            _ => unreachable!(),
        }
    }
}
