//! Objects and their fields (JVMS 8 section 6.5).

ghost use Rattle.std.specs.Prelude.{◌≡◌, option_and_then, IfOk};
ghost use Rattle.kb_semantics.specs.Instructions.{field_of, get_field, make_object, makes, put_field, with};
ghost use Rattle.kb_heap.specs.declared.heap.Object.{Object as PlainObject};
ghost use Rattle.kb_heap.specs.Heap.{object_at, with_value};
ghost use Rattle.kb_semantics.specs.Ways.{goes_with};
ghost use Rattle.kb_machine.specs.Turns.{setting_of, config_of, told};

use crate::NoMemory;
use crate::state::State;
use crate::throwing::NULL_POINTER;
use crate::turn::{Step, Turn};
use kb_heap::{Object, Value};
use kb_names::ExactType;
use kb_values::{field_of, new_object};
use kb_world::FieldSlot;

impl State {
    /// getfield
    #[tactic(auto, unfolding(kb_semantics::specs::Instructions::get_field, kb_semantics::specs::Ways::goes_on), using(crate::proofs::Steps::throws_cleared))]
    pub(crate) fn get_field(&mut self, turn: &Turn<'_>, entry: u16) -> Result<Step, NoMemory>
        ensures { IfOk result (λ step. told turn.now step self.new ≡ get_field entry (setting_of turn.now) turn.now.next (config_of turn.now self.old)) }
    {
        let class = self.frame.class(turn.world);
        let Some(field) = turn.world.find_field(class, entry) else {
            return Ok(self.ill_typed());
        };
        let Some(reference) = self.frame.a_reference() else {
            return Ok(self.ill_typed());
        };
        let Some(object) = reference else {
            return self.throws(turn, NULL_POINTER);
        };
        match field_of(turn.world, &self.heap, object, field) {
            Some(value) => self.push(turn, value),
            None => Ok(self.ill_typed()),
        }
    }

    /// putfield
    #[tactic(auto, unfolding(kb_semantics::specs::Instructions::put_field, kb_semantics::specs::Ways::goes_on), using(crate::proofs::Steps::throws_cleared))]
    pub(crate) fn put_field(&mut self, turn: &Turn<'_>, entry: u16) -> Result<Step, NoMemory>
        ensures { IfOk result (λ step. told turn.now step self.new ≡ put_field entry (setting_of turn.now) turn.now.next (config_of turn.now self.old)) }
    {
        let class = self.frame.class(turn.world);
        let Some(field) = turn.world.find_field(class, entry) else {
            return Ok(self.ill_typed());
        };
        let Some((reference, value)) = self.frame.an_object_and_value(&field.kind) else {
            return Ok(self.ill_typed());
        };
        let Some(object) = reference else {
            return self.throws(turn, NULL_POINTER);
        };
        Ok(self.put_slot(turn, object, field, value))
    }

    /// new
    #[tactic(auto, unfolding(kb_semantics::specs::Instructions::make_object))]
    pub(crate) fn make_object(&mut self, turn: &Turn<'_>, entry: u16) -> Result<Step, NoMemory>
        ensures { IfOk result (λ step. told turn.now step self.new ≡ make_object entry (setting_of turn.now) turn.now.next (config_of turn.now self.old)) }
    {
        let class = self.frame.class(turn.world);
        let Some(ExactType::Class(name)) = turn.world.find_type(class, entry) else {
            return Ok(self.ill_typed());
        };
        let own = self.names.own_name(turn.alloc, name)?;
        let object = new_object(turn.alloc, turn.world, own)?;
        self.makes(turn, object)
    }

    // A slot of an object is written, and it goes on at the next offset.
    #[tactic(auto, unfolding(kb_semantics::specs::Ways::goes_on))]
    fn put_slot(&mut self, turn: &Turn<'_>, object: u32, field: &FieldSlot, value: Value) -> Step
        ensures { told turn.now result self.new ≡ with (setting_of turn.now) (config_of turn.now self.old) (option_and_then (λ (of : PlainObject). field_of turn.now.world.now of field.now) (object_at self.old.heap object)) (λ before. goes_with (setting_of turn.now) (config_of turn.now self.old) turn.now.next self.old.frame.stack (with_value self.old.heap object field.now.slot value)) }
    {
        if field_of(turn.world, &self.heap, object, field).is_none() {
            return self.ill_typed();
        }
        if !self.frame.is_allowed(turn.world) {
            return self.ill_typed();
        }
        self.heap.put(object, field.slot, value);
        self.advance(turn)
    }

    /// It goes on at the next offset with an object more in the heap, and its reference on the stack.
    #[tactic(auto, unfolding(kb_semantics::specs::Ways::goes_on))]
    pub(crate) fn makes(&mut self, turn: &Turn<'_>, object: Object) -> Result<Step, NoMemory>
        ensures { IfOk result (λ step. told turn.now step self.new ≡ makes (setting_of turn.now) turn.now.next (config_of turn.now self.old) object self.old.frame.stack) }
    {
        if !self.frame.has_room(turn.world) {
            return Ok(self.ill_typed());
        }
        let number = self.add(object)?;
        self.frame.push(Value::Ref(number))?;
        Ok(self.advance(turn))
    }
}
