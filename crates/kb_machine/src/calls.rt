//! Calls (JVMS 8 sections 2.6 and 6.5).

ghost use Rattle.std.specs.Prelude.{◌≡◌, option_map, IfOk};
ghost use Rattle.kb_class.specs.declared.ids.MethodId.{MethodId as PlainId};
ghost use Rattle.kb_heap.specs.declared.heap.Object.{Object as PlainObject};
ghost use Rattle.kb_semantics.specs.Instructions.{invoke, invokes, invokes_on, on_object, selected_at};
ghost use Rattle.kb_semantics.specs.Operands.{receiver_of};
ghost use Rattle.kb_semantics.specs.Ways.{enters};
ghost use Rattle.kb_resolution.specs.Lookup.{selected_special};
ghost use Rattle.kb_lookups.specs.Callees.{plain_callee};
ghost use Rattle.kb_stack.specs.Taken.{kind_of};
ghost use Rattle.kb_machine.specs.Turns.{config_of, setting_of, told};

use crate::NoMemory;
use crate::state::State;
use crate::throwing::NULL_POINTER;
use crate::turn::{Step, Turn};
use kb_class::{ClassId, MethodId};
use kb_heap::{Bound, Value};
use kb_lookups::{Callee, callee_at, selected_at};
use kb_stack::{Call, Frame};
use kb_values::{platform_result, receiver_of};
use std::mem;

impl State {
    /// invokevirtual, invokespecial, invokestatic, invokeinterface
    #[tactic(auto, unfolding(kb_semantics::specs::Instructions::invoke))]
    pub(crate) fn invoke(
        &mut self,
        turn: &Turn<'_>,
        call: Call,
        entry: u16,
    ) -> Result<Step, NoMemory>
        ensures { IfOk result (λ step. told turn.now step self.new ≡ invoke (kind_of call) entry (setting_of turn.now) turn.now.next (config_of turn.now self.old)) }
    {
        let class = self.frame.class(turn.world);
        let Some(callee) = callee_at(turn.world, class, entry) else {
            return Ok(self.ill_typed());
        };
        match self.frame.operands(turn.alloc, call, callee.kind)? {
            Some(args) => self.invokes_on(turn, call, entry, &callee, args.as_slice()),
            None => Ok(self.ill_typed()),
        }
    }

    // It is called with these operands.
    fn invokes_on(
        &mut self,
        turn: &Turn<'_>,
        call: Call,
        entry: u16,
        callee: &Callee<'_>,
        args: &[Value],
    ) -> Result<Step, NoMemory>
        ensures { IfOk result (λ step. told turn.now step self.new ≡ invokes_on (kind_of call) entry (setting_of turn.now) turn.now.next (config_of turn.now self.old) (plain_callee callee.now) args.now self.old.frame.stack) }
    {
        let class = self.frame.class(turn.world);
        match call {
            Call::Static => self.invokes(turn, turn.world.find_resolved(class, entry), args),
            Call::Special => self.invokes_special(turn, class, entry, args),
            Call::BySelection => self.invokes_selected(turn, class, entry, callee, args),
        }
    }

    // invokespecial with these operands
    fn invokes_special(
        &mut self,
        turn: &Turn<'_>,
        class: ClassId,
        entry: u16,
        args: &[Value],
    ) -> Result<Step, NoMemory>
        ensures { IfOk result (λ step. told turn.now step self.new ≡ on_object (setting_of turn.now) (config_of turn.now self.old) (receiver_of args.now) (λ o object. invokes (setting_of turn.now) turn.now.next (config_of turn.now self.old) (selected_special turn.now.world.now class.0 entry) args.now self.old.frame.stack)) }
    {
        let Some(object) = receiver_of(args) else {
            return self.throws(turn, NULL_POINTER);
        };
        if object as usize >= self.heap.objects.as_slice().len() {
            return Ok(self.ill_typed());
        }
        self.invokes(turn, turn.world.find_special(class, entry), args)
    }

    // invokevirtual and invokeinterface with these operands
    fn invokes_selected(
        &mut self,
        turn: &Turn<'_>,
        class: ClassId,
        entry: u16,
        callee: &Callee<'_>,
        args: &[Value],
    ) -> Result<Step, NoMemory>
        ensures { IfOk result (λ step. told turn.now step self.new ≡ on_object (setting_of turn.now) (config_of turn.now self.old) (receiver_of args.now) (λ o (object : PlainObject). invokes (setting_of turn.now) turn.now.next (config_of turn.now self.old) (selected_at turn.now.world.now class.0 entry (plain_callee callee.now) object.kind) args.now self.old.frame.stack)) }
    {
        let Some(object) = receiver_of(args) else {
            return self.throws(turn, NULL_POINTER);
        };
        let Some(receiver) = self.heap.objects.as_slice().get(object as usize) else {
            return Ok(self.ill_typed());
        };
        let found = selected_at(turn.world, class, entry, callee, &receiver.kind);
        self.invokes(turn, found, args)
    }

    // The method of that number is called with these operands.
    fn invokes(
        &mut self,
        turn: &Turn<'_>,
        found: Option<MethodId>,
        args: &[Value],
    ) -> Result<Step, NoMemory>
        ensures { IfOk result (λ step. told turn.now step self.new ≡ invokes (setting_of turn.now) turn.now.next (config_of turn.now self.old) (option_map (λ (id : PlainId). id.0) found) args.now self.old.frame.stack) }
    {
        let Some(id) = found else {
            return Ok(self.ill_typed());
        };
        let Some(info) = turn.world.find_method(id) else {
            return Ok(self.ill_typed());
        };
        if info.code.is_some() {
            return self.enters(turn, id, args);
        }
        if !turn.world.is_platform(info.class) {
            return Ok(self.ill_typed());
        }
        match platform_result(turn.world, info, args) {
            Some(value) => self.push(turn, value),
            None => Ok(self.goes(turn)),
        }
    }

    // A method with code begins with these arguments.
    #[tactic(auto, unfolding(kb_semantics::specs::Ways::enters))]
    fn enters(
        &mut self,
        turn: &Turn<'_>,
        method: MethodId,
        args: &[Value],
    ) -> Result<Step, NoMemory>
        ensures { IfOk result (λ step. told turn.now step self.new ≡ enters (setting_of turn.now) (config_of turn.now self.old) method args.now self.old.frame.stack) }
    {
        if (turn.bounds.depth as usize).saturating_sub(self.callers.len()) < 2 {
            return Ok(Step::Past(Bound::Depth));
        }
        let frame = Frame::begin(turn.alloc, turn.world, method, args)?;
        let caller = mem::replace(&mut self.frame, frame);
        self.callers.push(caller)?;
        Ok(Step::Goes)
    }
}
