//! Arrays (JVMS 8 section 6.5).

ghost use Rattle.std.specs.Prelude.{◌≡◌, ◌∷◌, pos, IfOk};
ghost use Rattle.kb_semantics.specs.Instructions.{array_length, load_element, make_array, makes_array, store_element};
ghost use Rattle.kb_heap.specs.declared.heap.Value.TheVariants.{Int};
ghost use Rattle.kb_heap.specs.Heap.{IsPlace, with_value};
ghost use Rattle.kb_semantics.specs.Ways.{goes, goes_with};
ghost use Rattle.kb_machine.specs.Turns.{setting_of, config_of, told};

use crate::NoMemory;
use crate::state::State;
use crate::throwing::{ARRAY_STORE, INDEX_OUTSIDE, NEGATIVE_SIZE, NULL_POINTER};
use crate::turn::{Step, Turn};
use kb_code::Elem;
use kb_heap::{Bound, Value};
use kb_names::JType;
use kb_values::{Loaded, Stored, len_at, loaded_at, new_array, stored_at};

impl State {
    /// iaload, aaload, baload
    #[tactic(auto, unfolding(kb_semantics::specs::Instructions::load_element, kb_semantics::specs::Ways::goes_on), using(crate::proofs::Steps::throws_cleared))]
    pub(crate) fn load_element(&mut self, turn: &Turn<'_>, elem: Elem) -> Result<Step, NoMemory>
        ensures { IfOk result (λ step. told turn.now step self.new ≡ load_element elem (setting_of turn.now) turn.now.next (config_of turn.now self.old)) }
    {
        let Some((reference, index)) = self.frame.an_element() else {
            return Ok(self.ill_typed());
        };
        let Some(array) = reference else {
            return self.throws(turn, NULL_POINTER);
        };
        match loaded_at(&self.heap, array, elem, index) {
            Loaded::Value(value) => self.push(turn, value),
            Loaded::Outside => self.throws(turn, INDEX_OUTSIDE),
            Loaded::IllTyped => Ok(self.ill_typed()),
        }
    }

    /// arraylength
    #[tactic(auto, unfolding(kb_semantics::specs::Instructions::array_length, kb_semantics::specs::Ways::goes_on), using(crate::proofs::Steps::throws_cleared))]
    pub(crate) fn array_length(&mut self, turn: &Turn<'_>) -> Result<Step, NoMemory>
        ensures { IfOk result (λ step. told turn.now step self.new ≡ array_length (setting_of turn.now) turn.now.next (config_of turn.now self.old)) }
    {
        let Some(reference) = self.frame.a_reference() else {
            return Ok(self.ill_typed());
        };
        let Some(array) = reference else {
            return self.throws(turn, NULL_POINTER);
        };
        match len_at(&self.heap, array) {
            Some(len) => self.push_len(turn, len),
            None => Ok(self.ill_typed()),
        }
    }

    /// iastore, aastore, bastore
    #[tactic(auto, unfolding(kb_semantics::specs::Instructions::store_element, kb_semantics::specs::Ways::goes_on), using(crate::proofs::Steps::throws_cleared))]
    pub(crate) fn store_element(&mut self, turn: &Turn<'_>, elem: Elem) -> Result<Step, NoMemory>
        ensures { IfOk result (λ step. told turn.now step self.new ≡ store_element elem (setting_of turn.now) turn.now.next (config_of turn.now self.old)) }
    {
        let Some(((reference, index), value)) = self.frame.an_element_and_value(elem) else {
            return Ok(self.ill_typed());
        };
        let Some(array) = reference else {
            return self.throws(turn, NULL_POINTER);
        };
        match stored_at(turn.world, &self.heap, array, elem, index, value) {
            Stored::Kept(place, value) => Ok(self.put_element(turn, array, place, value)),
            Stored::Outside => self.throws(turn, INDEX_OUTSIDE),
            Stored::Refused => self.throws(turn, ARRAY_STORE),
            Stored::IllTyped => Ok(self.ill_typed()),
        }
    }

    /// newarray, anewarray
    #[tactic(auto, unfolding(kb_semantics::specs::Instructions::make_array, kb_semantics::specs::Ways::goes_on), using(crate::proofs::Steps::throws_cleared))]
    pub(crate) fn make_array(
        &mut self,
        turn: &Turn<'_>,
        component: Option<JType>,
    ) -> Result<Step, NoMemory>
        ensures { IfOk result (λ step. told turn.now step self.new ≡ make_array component (setting_of turn.now) turn.now.next (config_of turn.now self.old)) }
    {
        let Some(of) = component else {
            return Ok(self.ill_typed());
        };
        match self.frame.an_int() {
            Some(len) => self.makes_array(turn, of, len),
            None => Ok(self.ill_typed()),
        }
    }

    // An array of a length is made.
    fn makes_array(&mut self, turn: &Turn<'_>, of: JType, len: i32) -> Result<Step, NoMemory>
        ensures { IfOk result (λ step. told turn.now step self.new ≡ makes_array (setting_of turn.now) turn.now.next (config_of turn.now self.old) of len self.old.frame.stack) }
    {
        let Ok(count) = u32::try_from(len) else {
            return self.throws(turn, NEGATIVE_SIZE);
        };
        if count > turn.bounds.alloc {
            return Ok(Step::Past(Bound::Alloc));
        }
        let object = new_array(turn.alloc, of, count)?;
        self.makes(turn, object)
    }

    // An element is written, and it goes on at the next offset.
    #[tactic(auto, unfolding(kb_semantics::specs::Ways::goes_on))]
    fn put_element(&mut self, turn: &Turn<'_>, array: u32, place: u32, value: Value) -> Step
        requires { IsPlace self.old.heap array place }
        ensures { told turn.now result self.new ≡ goes_with (setting_of turn.now) (config_of turn.now self.old) turn.now.next self.old.frame.stack (with_value self.old.heap array place value) }
    {
        if !self.frame.is_allowed(turn.world) {
            return self.ill_typed();
        }
        self.heap.put(array, place, value);
        self.advance(turn)
    }

    // The length of an array goes on the stack.
    fn push_len(&mut self, turn: &Turn<'_>, len: usize) -> Result<Step, NoMemory>
        ensures { IfOk result (λ step. told turn.now step self.new ≡ goes (setting_of turn.now) (config_of turn.now self.old) turn.now.next (Int (pos len) ∷ self.old.frame.stack)) }
    {
        match i32::try_from(len) {
            Ok(len) => self.push(turn, Value::Int(len)),
            Err(_) => Err(NoMemory),
        }
    }
}
