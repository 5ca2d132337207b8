//! Returns (JVMS 8 sections 2.6.4 and 6.5).

ghost use Rattle.std.specs.Prelude.{◌≡◌, is_some, option_and_then, IfOk};
ghost use Rattle.kb_semantics.specs.Config.{result_of};
ghost use Rattle.kb_semantics.specs.Values.{kept};
ghost use Rattle.kb_semantics.specs.Instructions.{return_int, return_nothing, return_reference};
ghost use Rattle.kb_semantics.specs.Ways.{hands_over, returns_nothing, returns_value};
ghost use Rattle.kb_machine.specs.Turns.{config_of, setting_of, told};

use crate::NoMemory;
use crate::state::State;
use crate::turn::{Step, Turn};
use kb_heap::Value;
use kb_values::{kept, value_of};

impl State {
    /// ireturn
    #[tactic(auto, unfolding(kb_semantics::specs::Instructions::return_int, kb_semantics::specs::Ways::returns_value, kb_semantics::specs::Ways::hands_over))]
    pub(crate) fn return_int(&mut self, turn: &Turn<'_>) -> Result<Step, NoMemory>
        ensures { IfOk result (λ step. told turn.now step self.new ≡ return_int (setting_of turn.now) turn.now.next (config_of turn.now self.old)) }
    {
        match self.frame.an_int() {
            Some(value) => self.returns_value(turn, Value::Int(value)),
            None => Ok(self.ill_typed()),
        }
    }

    /// areturn
    #[tactic(auto, unfolding(kb_semantics::specs::Instructions::return_reference, kb_semantics::specs::Ways::returns_value, kb_semantics::specs::Ways::hands_over))]
    pub(crate) fn return_reference(&mut self, turn: &Turn<'_>) -> Result<Step, NoMemory>
        ensures { IfOk result (λ step. told turn.now step self.new ≡ return_reference (setting_of turn.now) turn.now.next (config_of turn.now self.old)) }
    {
        match self.frame.a_reference() {
            Some(value) => self.returns_value(turn, value_of(value)),
            None => Ok(self.ill_typed()),
        }
    }

    /// return
    #[tactic(auto, unfolding(kb_semantics::specs::Instructions::return_nothing, kb_semantics::specs::Ways::returns_nothing))]
    pub(crate) fn return_nothing(&mut self, turn: &Turn<'_>) -> Result<Step, NoMemory>
        ensures { IfOk result (λ step. told turn.now step self.new ≡ return_nothing (setting_of turn.now) turn.now.next (config_of turn.now self.old)) }
    {
        if self.has_result(turn) {
            return Ok(self.ill_typed());
        }
        self.hands_over(turn, None)
    }

    // Whether the method is declared to return a value.
    fn has_result(&self, turn: &Turn<'_>) -> bool
        ensures { result ≡ is_some (result_of turn.now.world.now self.now.frame.method) }
    {
        match turn.world.find_method(self.frame.method()) {
            Some(info) => info.kind.result.is_some(),
            None => false,
        }
    }

    // What the method's result keeps of a value.
    fn result_kept(&self, turn: &Turn<'_>, value: Value) -> Option<Value>
        ensures { result ≡ option_and_then (λ type. kept type value) (result_of turn.now.world.now self.now.frame.method) }
    {
        let info = turn.world.find_method(self.frame.method())?;
        match &info.kind.result {
            Some(of) => kept(of, value),
            None => None,
        }
    }

    // The method returns a value.
    #[tactic(auto, unfolding(kb_semantics::specs::Ways::returns_value))]
    fn returns_value(&mut self, turn: &Turn<'_>, value: Value) -> Result<Step, NoMemory>
        ensures { IfOk result (λ step. told turn.now step self.new ≡ returns_value (setting_of turn.now) (config_of turn.now self.old) value) }
    {
        match self.result_kept(turn, value) {
            Some(value) => self.hands_over(turn, Some(value)),
            None => Ok(self.ill_typed()),
        }
    }

    // The method's result goes to its caller.
    #[tactic(auto, unfolding(kb_semantics::specs::Ways::hands_over))]
    fn hands_over(&mut self, turn: &Turn<'_>, value: Option<Value>) -> Result<Step, NoMemory>
        ensures { IfOk result (λ step. told turn.now step self.new ≡ hands_over (setting_of turn.now) (config_of turn.now self.old) value) }
    {
        let place = self.ill_typed();
        let Some(caller) = self.callers.pop() else {
            return Ok(Step::Returned(value));
        };
        self.frame = caller;
        if !self.frame.resumes(turn.world, value)? {
            return Ok(place);
        }
        Ok(Step::Goes)
    }
}
