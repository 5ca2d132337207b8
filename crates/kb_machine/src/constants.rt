//! Instructions that push constants (JVMS 8 section 6.5).

ghost use Rattle.std.specs.Prelude.{◌≡◌, IfOk};
ghost use Rattle.kb_semantics.specs.Instructions.{nop, push_null, push_int};
ghost use Rattle.kb_machine.specs.Turns.{setting_of, config_of, told};

use crate::NoMemory;
use crate::state::State;
use crate::turn::{Step, Turn};
use kb_heap::Value;

impl State {
    /// nop
    #[tactic(auto, unfolding(kb_semantics::specs::Instructions::nop))]
    pub(crate) fn nop(&mut self, turn: &Turn<'_>) -> Step
        ensures { told turn.now result self.new ≡ nop (setting_of turn.now) turn.now.next (config_of turn.now self.old) }
    {
        self.goes(turn)
    }

    /// aconst_null
    #[tactic(auto, unfolding(kb_semantics::specs::Instructions::push_null))]
    pub(crate) fn push_null(&mut self, turn: &Turn<'_>) -> Result<Step, NoMemory>
        ensures { IfOk result (λ step. told turn.now step self.new ≡ push_null (setting_of turn.now) turn.now.next (config_of turn.now self.old)) }
    {
        self.push(turn, Value::Null)
    }

    /// iconst, bipush, sipush
    #[tactic(auto, unfolding(kb_semantics::specs::Instructions::push_int))]
    pub(crate) fn push_int(&mut self, turn: &Turn<'_>, value: i32) -> Result<Step, NoMemory>
        ensures { IfOk result (λ step. told turn.now step self.new ≡ push_int value (setting_of turn.now) turn.now.next (config_of turn.now self.old)) }
    {
        self.push(turn, Value::Int(value))
    }
}
