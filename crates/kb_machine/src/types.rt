//! Types of objects and arrays (JVMS 8 section 6.5).

ghost use Rattle.std.specs.Prelude.{◌≡◌, IfOk};
ghost use Rattle.kb_semantics.specs.Instructions.{cast, component_of_entry, instance_of, make_array};
ghost use Rattle.kb_semantics.specs.Config.{class_number};
ghost use Rattle.kb_universe.specs.Faults.{component_of_code};
ghost use Rattle.kb_machine.specs.Turns.{setting_of, config_of, told};

use crate::NoMemory;
use crate::state::State;
use crate::throwing::CLASS_CAST;
use crate::turn::{Step, Turn};
use kb_heap::Value;
use kb_values::{is_instance, truth, type_of_exact};
use kb_world::component_of_code;

impl State {
    /// checkcast
    #[tactic(auto, unfolding(kb_semantics::specs::Instructions::cast, kb_semantics::specs::Ways::goes_on), using(crate::proofs::Steps::throws_cleared))]
    pub(crate) fn cast(&mut self, turn: &Turn<'_>, entry: u16) -> Result<Step, NoMemory>
        ensures { IfOk result (λ step. told turn.now step self.new ≡ cast entry (setting_of turn.now) turn.now.next (config_of turn.now self.old)) }
    {
        let class = self.frame.class(turn.world);
        let Some(high) = turn.world.find_type(class, entry) else {
            return Ok(self.ill_typed());
        };
        let Some(reference) = self.frame.top_reference() else {
            return Ok(self.ill_typed());
        };
        if !is_instance(turn.world, &self.heap, high, reference, true) {
            return self.throws(turn, CLASS_CAST);
        }
        Ok(self.goes(turn))
    }

    /// instanceof
    #[tactic(auto, unfolding(kb_semantics::specs::Instructions::instance_of, kb_semantics::specs::Ways::goes_on))]
    pub(crate) fn instance_of(&mut self, turn: &Turn<'_>, entry: u16) -> Result<Step, NoMemory>
        ensures { IfOk result (λ step. told turn.now step self.new ≡ instance_of entry (setting_of turn.now) turn.now.next (config_of turn.now self.old)) }
    {
        let class = self.frame.class(turn.world);
        let Some(high) = turn.world.find_type(class, entry) else {
            return Ok(self.ill_typed());
        };
        let Some(reference) = self.frame.a_reference() else {
            return Ok(self.ill_typed());
        };
        let so = is_instance(turn.world, &self.heap, high, reference, false);
        self.push(turn, Value::Int(truth(so)))
    }

    /// anewarray
    #[tactic(auto, unfolding(kb_semantics::specs::Instructions::make_array))]
    pub(crate) fn make_references(&mut self, turn: &Turn<'_>, entry: u16) -> Result<Step, NoMemory>
        ensures { IfOk result (λ step. told turn.now step self.new ≡ make_array (component_of_entry turn.now.world.now (class_number turn.now.world.now self.old.frame.method) entry) (setting_of turn.now) turn.now.next (config_of turn.now self.old)) }
    {
        let class = self.frame.class(turn.world);
        match turn.world.find_type(class, entry) {
            Some(of) => {
                let own = self.names.own_type(turn.alloc, of)?;
                let component = type_of_exact(turn.alloc, &own)?;
                self.make_array(turn, Some(component))
            }
            None => self.make_array(turn, None),
        }
    }

    /// newarray
    #[tactic(auto, unfolding(kb_semantics::specs::Instructions::make_array))]
    pub(crate) fn make_primitives(&mut self, turn: &Turn<'_>, code: u8) -> Result<Step, NoMemory>
        ensures { IfOk result (λ step. told turn.now step self.new ≡ make_array (component_of_code code) (setting_of turn.now) turn.now.next (config_of turn.now self.old)) }
    {
        self.make_array(turn, component_of_code(code))
    }
}
