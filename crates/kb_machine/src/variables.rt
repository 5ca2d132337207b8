//! Instructions on locals (JVMS 8 section 6.5).

ghost use Rattle.std.specs.Prelude.{◌≡◌, IfOk};
ghost use Rattle.kb_semantics.specs.Instructions.{load_int, load_reference, store_int, store_reference, increase};
ghost use Rattle.kb_machine.specs.Turns.{setting_of, config_of, told};

use crate::NoMemory;
use crate::state::State;
use crate::turn::{Step, Turn};
use kb_heap::Value;
use kb_values::value_of;

impl State {
    /// iload
    #[tactic(auto, unfolding(kb_semantics::specs::Instructions::load_int))]
    pub(crate) fn load_int(&mut self, turn: &Turn<'_>, local: u16) -> Result<Step, NoMemory>
        ensures { IfOk result (λ step. told turn.now step self.new ≡ load_int local (setting_of turn.now) turn.now.next (config_of turn.now self.old)) }
    {
        match self.frame.local(turn.world, local) {
            Some(Value::Int(value)) => self.push(turn, Value::Int(value)),
            _ => Ok(self.ill_typed()),
        }
    }

    /// aload
    #[tactic(auto, unfolding(kb_semantics::specs::Instructions::load_reference))]
    pub(crate) fn load_reference(&mut self, turn: &Turn<'_>, local: u16) -> Result<Step, NoMemory>
        ensures { IfOk result (λ step. told turn.now step self.new ≡ load_reference local (setting_of turn.now) turn.now.next (config_of turn.now self.old)) }
    {
        match self.frame.local(turn.world, local) {
            Some(Value::Null) => self.push(turn, Value::Null),
            Some(Value::Ref(object)) => self.push(turn, Value::Ref(object)),
            _ => Ok(self.ill_typed()),
        }
    }

    /// istore
    #[tactic(auto, unfolding(kb_semantics::specs::Instructions::store_int, kb_semantics::specs::Ways::goes_on))]
    pub(crate) fn store_int(&mut self, turn: &Turn<'_>, local: u16) -> Result<Step, NoMemory>
        ensures { IfOk result (λ step. told turn.now step self.new ≡ store_int local (setting_of turn.now) turn.now.next (config_of turn.now self.old)) }
    {
        match self.frame.an_int() {
            Some(value) => self.sets_local(turn, local, Value::Int(value)),
            None => Ok(self.ill_typed()),
        }
    }

    /// astore
    #[tactic(auto, unfolding(kb_semantics::specs::Instructions::store_reference, kb_semantics::specs::Ways::goes_on))]
    pub(crate) fn store_reference(&mut self, turn: &Turn<'_>, local: u16) -> Result<Step, NoMemory>
        ensures { IfOk result (λ step. told turn.now step self.new ≡ store_reference local (setting_of turn.now) turn.now.next (config_of turn.now self.old)) }
    {
        match self.frame.a_reference() {
            Some(value) => self.sets_local(turn, local, value_of(value)),
            None => Ok(self.ill_typed()),
        }
    }

    /// iinc
    #[tactic(auto, unfolding(kb_semantics::specs::Instructions::increase))]
    pub(crate) fn increase(
        &mut self,
        turn: &Turn<'_>,
        local: u16,
        by: i32,
    ) -> Result<Step, NoMemory>
        ensures { IfOk result (λ step. told turn.now step self.new ≡ increase local by (setting_of turn.now) turn.now.next (config_of turn.now self.old)) }
    {
        match self.frame.local(turn.world, local) {
            Some(Value::Int(value)) => {
                self.sets_local(turn, local, Value::Int(kb_arith::add(value, by)))
            }
            _ => Ok(self.ill_typed()),
        }
    }
}
