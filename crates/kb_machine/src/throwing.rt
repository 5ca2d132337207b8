//! Instructions that throw (JVMS 8 sections 2.10 and 6.5).

ghost use Rattle.std.specs.Prelude.{◌≡◌, [], ◌∷◌, length, IfOk, OnOk, if◌then◌else◌};
ghost use Rattle.kb_names.specs.declared.types.JType.TheVariants as types;
ghost use Rattle.kb_class.specs.Platform.{throwable};
ghost use Rattle.kb_heap.specs.declared.heap.Object.{Object as PlainObject};
ghost use Rattle.kb_heap.specs.declared.heap.Value.TheVariants.{Ref};
ghost use Rattle.kb_heap.specs.Heap.{object_at, with_object};
ghost use Rattle.kb_classes.specs.Subtypes.{fits};
ghost use Rattle.kb_semantics.specs.Instructions.{throw, with};
ghost use Rattle.kb_semantics.specs.Values.{new_object};
ghost use Rattle.kb_semantics.specs.Ways.{ill_typed, throws, throws_object};
ghost use Rattle.kb_machine.specs.declared.turn.Step.TheVariants as steps;
ghost use Rattle.kb_machine.specs.Turns.{setting_of, config_of, told};

use crate::NoMemory;
use crate::names::Names;
use crate::state::State;
use crate::turn::{Step, Turn};
use crate::unwinding::{Landing, unwind};
use kb_heap::{Bound, Object, Value};
use kb_values::new_object;

/// The exceptions that the machine throws itself.
pub(crate) const NULL_POINTER: &[u8] = b"java/lang/NullPointerException";

pub(crate) const ARITHMETIC: &[u8] = b"java/lang/ArithmeticException";

pub(crate) const INDEX_OUTSIDE: &[u8] = b"java/lang/ArrayIndexOutOfBoundsException";

pub(crate) const ARRAY_STORE: &[u8] = b"java/lang/ArrayStoreException";

pub(crate) const CLASS_CAST: &[u8] = b"java/lang/ClassCastException";

pub(crate) const NEGATIVE_SIZE: &[u8] = b"java/lang/NegativeArraySizeException";

const THROWABLE: &[u8] = b"java/lang/Throwable";

impl State {
    /// Adds an object to the heap, and gives its number.
    pub(crate) fn add(&mut self, object: Object) -> Result<u32, NoMemory>
        ensures number { IfOk result (λ number. number ≡ length self.old.heap.objects) }
        ensures state { OnOk result (self.new ≡ record self.old { heap = with_object self.old.heap object }) }
    {
        match self.heap.add(object) {
            Ok(number) => Ok(number),
            Err(_) => Err(NoMemory),
        }
    }

    /// A new object of the class is thrown.
    pub(crate) fn throws(&mut self, turn: &Turn<'_>, class: &[u8]) -> Result<Step, NoMemory>
        ensures { IfOk result (λ step. told turn.now step self.new ≡ throws (setting_of turn.now) (config_of turn.now self.old) class.now) }
    {
        let object = object_of(turn, &mut self.names, class)?;
        let place = self.ill_typed();
        match unwind(turn, &mut self.frame, &mut self.callers, &object.kind) {
            Landing::Caught => {
                let number = self.add(object)?;
                self.catches(number)
            }
            Landing::Uncaught => {
                let number = self.add(object)?;
                Ok(Step::Threw(number))
            }
            Landing::IllTyped => Ok(place),
            Landing::PastLoops => Ok(Step::Past(Bound::Loops)),
        }
    }

    // The frame that has come to its handler has the object on its stack.
    fn catches(&mut self, object: u32) -> Result<Step, NoMemory>
        ensures step { IfOk result (λ step. step ≡ steps.Goes) }
        ensures state { OnOk result (self.new ≡ record self.old { frame = record self.old.frame { stack = Ref object ∷ [] } }) }
    {
        self.frame.hold(Value::Ref(object))?;
        Ok(Step::Goes)
    }

    /// An object of the heap is thrown.
    fn throws_object(&mut self, turn: &Turn<'_>, object: u32) -> Result<Step, NoMemory>
        ensures { IfOk result (λ step. told turn.now step self.new ≡ with (setting_of turn.now) (config_of turn.now self.old) (object_at self.old.heap object) (λ (of : PlainObject). if fits turn.now.world.now of.kind (types.Class throwable) then throws_object (setting_of turn.now) (config_of turn.now self.old) object of.kind else ill_typed (setting_of turn.now) (config_of turn.now self.old))) }
    {
        let place = self.ill_typed();
        let Some(of) = self.heap.objects.as_slice().get(object as usize) else {
            return Ok(place);
        };
        if !turn.world.is_of_class(&of.kind, THROWABLE) {
            return Ok(place);
        }
        match unwind(turn, &mut self.frame, &mut self.callers, &of.kind) {
            Landing::Caught => self.catches(object),
            Landing::Uncaught => Ok(Step::Threw(object)),
            Landing::IllTyped => Ok(place),
            Landing::PastLoops => Ok(Step::Past(Bound::Loops)),
        }
    }

    /// athrow
    #[tactic(auto, unfolding(kb_semantics::specs::Instructions::throw, kb_semantics::specs::Ways::goes_on), using(crate::proofs::Steps::throws_cleared, crate::proofs::Steps::throws_object_cleared))]
    pub(crate) fn throw(&mut self, turn: &Turn<'_>) -> Result<Step, NoMemory>
        ensures { IfOk result (λ step. told turn.now step self.new ≡ throw (setting_of turn.now) turn.now.next (config_of turn.now self.old)) }
    {
        match self.frame.a_reference() {
            Some(Some(object)) => self.throws_object(turn, object),
            Some(None) => self.throws(turn, NULL_POINTER),
            None => Ok(self.ill_typed()),
        }
    }
}

// A new object of a class by its name.
fn object_of(turn: &Turn<'_>, names: &mut Names, class: &[u8]) -> Result<Object, NoMemory>
    ensures { IfOk result (λ object. object ≡ new_object turn.now.world.now class.now) }
{
    let name = names.thrown_name(turn.alloc, class)?;
    new_object(turn.alloc, turn.world, name)
}
