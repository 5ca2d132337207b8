//! Instructions on ints (JVMS 8 section 6.5).

ghost use Rattle.std.specs.Prelude.{◌≡◌, IfOk};
ghost use Rattle.kb_semantics.specs.Instructions.{apply_two, negate, narrow};
ghost use Rattle.kb_machine.specs.Turns.{setting_of, config_of, told};

use crate::NoMemory;
use crate::state::State;
use crate::throwing::ARITHMETIC;
use crate::turn::{Step, Turn};
use kb_code::{IntCut, IntOp};
use kb_heap::Value;
use kb_values::{int2_value, narrowed};

impl State {
    /// iadd, isub, imul, idiv, irem, ishl, ishr, iushr, iand, ior, ixor
    #[tactic(auto, unfolding(kb_semantics::specs::Instructions::apply_two, kb_semantics::specs::Ways::goes_on), using(crate::proofs::Steps::throws_cleared))]
    pub(crate) fn apply_two(&mut self, turn: &Turn<'_>, op: IntOp) -> Result<Step, NoMemory>
        ensures { IfOk result (λ step. told turn.now step self.new ≡ apply_two op (setting_of turn.now) turn.now.next (config_of turn.now self.old)) }
    {
        let Some((left, right)) = self.frame.two_ints() else {
            return Ok(self.ill_typed());
        };
        match int2_value(op, left, right) {
            Some(value) => self.push(turn, Value::Int(value)),
            None => self.throws(turn, ARITHMETIC),
        }
    }

    /// ineg
    #[tactic(auto, unfolding(kb_semantics::specs::Instructions::negate, kb_semantics::specs::Ways::goes_on))]
    pub(crate) fn negate(&mut self, turn: &Turn<'_>) -> Result<Step, NoMemory>
        ensures { IfOk result (λ step. told turn.now step self.new ≡ negate (setting_of turn.now) turn.now.next (config_of turn.now self.old)) }
    {
        match self.frame.an_int() {
            Some(value) => self.push(turn, Value::Int(kb_arith::neg(value))),
            None => Ok(self.ill_typed()),
        }
    }

    /// i2b, i2c, i2s
    #[tactic(auto, unfolding(kb_semantics::specs::Instructions::narrow, kb_semantics::specs::Ways::goes_on))]
    pub(crate) fn narrow(&mut self, turn: &Turn<'_>, cut: IntCut) -> Result<Step, NoMemory>
        ensures { IfOk result (λ step. told turn.now step self.new ≡ narrow cut (setting_of turn.now) turn.now.next (config_of turn.now self.old)) }
    {
        match self.frame.an_int() {
            Some(value) => self.push(turn, Value::Int(narrowed(cut, value))),
            None => Ok(self.ill_typed()),
        }
    }
}
