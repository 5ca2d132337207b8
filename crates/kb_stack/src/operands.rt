//! What instructions take from the operand stack: each shape of operands once. Where nothing is told, the stack is of no more
//! use.

ghost use Rattle.std.specs.Prelude.{◌≡◌, IfOk, OnOk};
ghost use Rattle.kb_semantics.specs.Instructions.{operands_of};
ghost use Rattle.kb_semantics.specs.Operands.{a_reference, a_value_for, arguments, receiver_and_arguments, an_object_and_value, reference_of, top_of, an_element, an_int, two_ints, two_references, is_of_elem, a_value_where, an_element_and_value};
ghost use Rattle.kb_stack.specs.Taken.{as_taken, kind_of};
ghost use Rattle.kb_semantics.specs.Looks.{only_where};

use crate::NoMemory;
use crate::call::Call;
use crate::frame::Frame;
use kb_code::Elem;
use kb_heap::{Row, Value};
use kb_names::{JType, MethodType};
use kb_values::{are_of_kinds, are_with_receiver, kept};
use std::alloc::Global;

impl Frame {
    /// An int.
    pub fn an_int(&mut self) -> Option<i32>
        ensures it { an_int self.old.stack ≡ as_taken result self.new.stack }
        ensures frame { self.new ≡ record self.old { stack = self.new.stack } }
    {
        match self.pop() {
            Some(Value::Int(value)) => Some(value),
            _ => None,
        }
    }

    /// A reference: null is None.
    pub fn a_reference(&mut self) -> Option<Option<u32>>
        ensures it { a_reference self.old.stack ≡ as_taken result self.new.stack }
        ensures frame { self.new ≡ record self.old { stack = self.new.stack } }
    {
        match self.pop() {
            Some(Value::Null) => Some(None),
            Some(Value::Ref(object)) => Some(Some(object)),
            _ => None,
        }
    }

    /// The reference on the top, which stays there.
    pub fn top_reference(&self) -> Option<Option<u32>>
        ensures { result ≡ reference_of (top_of self.now.stack) }
    {
        match self.top() {
            Some(Value::Null) => Some(None),
            Some(Value::Ref(object)) => Some(Some(object)),
            _ => None,
        }
    }

    /// A value for a field of the type, which keeps it.
    fn a_value_for(&mut self, of: &JType) -> Option<Value>
        ensures it { a_value_for of.now self.old.stack ≡ as_taken result self.new.stack }
        ensures frame { self.new ≡ record self.old { stack = self.new.stack } }
    {
        match self.pop() {
            Some(value) => kept(of, value),
            None => None,
        }
    }

    /// An object, and a value for a field of the type.
    pub fn an_object_and_value(&mut self, of: &JType) -> Option<(Option<u32>, Value)>
        ensures it { an_object_and_value of.now self.old.stack ≡ as_taken result self.new.stack }
        ensures frame { self.new ≡ record self.old { stack = self.new.stack } }
    {
        let value = self.a_value_for(of)?;
        let object = self.a_reference()?;
        Some((object, value))
    }

    /// Two ints, the lower one first.
    pub fn two_ints(&mut self) -> Option<(i32, i32)>
        ensures it { two_ints self.old.stack ≡ as_taken result self.new.stack }
        ensures frame { self.new ≡ record self.old { stack = self.new.stack } }
    {
        let right = self.an_int()?;
        let left = self.an_int()?;
        Some((left, right))
    }

    /// Two references, the lower one first.
    pub fn two_references(&mut self) -> Option<(Option<u32>, Option<u32>)>
        ensures it { two_references self.old.stack ≡ as_taken result self.new.stack }
        ensures frame { self.new ≡ record self.old { stack = self.new.stack } }
    {
        let right = self.a_reference()?;
        let left = self.a_reference()?;
        Some((left, right))
    }

    /// An array and an index.
    pub fn an_element(&mut self) -> Option<(Option<u32>, i32)>
        ensures it { an_element self.old.stack ≡ as_taken result self.new.stack }
        ensures frame { self.new ≡ record self.old { stack = self.new.stack } }
    {
        let index = self.an_int()?;
        let array = self.a_reference()?;
        Some((array, index))
    }

    /// A value of the kind of an array instruction.
    pub fn a_value_of(&mut self, elem: Elem) -> Option<Value>
        ensures it { a_value_where (is_of_elem elem) self.old.stack ≡ as_taken result self.new.stack }
        ensures frame { self.new ≡ record self.old { stack = self.new.stack } }
    {
        match self.pop() {
            Some(value) => if_of_elem(elem, value),
            None => None,
        }
    }

    /// An array, an index and a value to store.
    pub fn an_element_and_value(&mut self, elem: Elem) -> Option<((Option<u32>, i32), Value)>
        ensures it { an_element_and_value elem self.old.stack ≡ as_taken result self.new.stack }
        ensures frame { self.new ≡ record self.old { stack = self.new.stack } }
    {
        let value = self.a_value_of(elem)?;
        let element = self.an_element()?;
        Some((element, value))
    }

    /// The operands of a call, from the first one on.
    pub fn operands(
        &mut self,
        alloc: Global,
        call: Call,
        kind: &MethodType,
    ) -> Result<Option<Row<Value>>, NoMemory>
        ensures it { IfOk result (λ args. operands_of (kind_of call) kind.now self.old.stack ≡ as_taken args self.new.stack) }
        ensures frame { OnOk result (self.new ≡ record self.old { stack = self.new.stack }) }
    {
        match call {
            Call::Static => self.arguments(alloc, kind.params.as_slice()),
            Call::BySelection | Call::Special => self.receiver_and_arguments(
                alloc,
                kind.params.as_slice(),
            ),
        }
    }

    // Arguments for parameters of these types.
    #[tactic(auto, using(crate::proofs::Stacks::none_taken))]
    fn arguments(&mut self, alloc: Global, types: &[JType]) -> Result<Option<Row<Value>>, NoMemory>
        ensures it { IfOk result (λ args. arguments types.now self.old.stack ≡ as_taken args self.new.stack) }
        ensures frame { OnOk result (self.new ≡ record self.old { stack = self.new.stack }) }
    {
        let Some(values) = self.take_top(alloc, types.len())? else {
            return Ok(None);
        };
        if !are_of_kinds(types, values.as_slice()) {
            return Ok(None);
        }
        Ok(Some(values))
    }

    // Those with a receiver before them.
    #[tactic(auto, using(crate::proofs::Stacks::none_taken))]
    fn receiver_and_arguments(
        &mut self,
        alloc: Global,
        types: &[JType],
    ) -> Result<Option<Row<Value>>, NoMemory>
        ensures it { IfOk result (λ args. receiver_and_arguments types.now self.old.stack ≡ as_taken args self.new.stack) }
        ensures frame { OnOk result (self.new ≡ record self.old { stack = self.new.stack }) }
    {
        let Some(values) = self.take_top(alloc, types.len() + 1)? else {
            return Ok(None);
        };
        if !are_with_receiver(types, values.as_slice()) {
            return Ok(None);
        }
        Ok(Some(values))
    }
}

// The value, where it is of the kind of an array instruction.
fn if_of_elem(elem: Elem, value: Value) -> Option<Value>
    ensures { result ≡ only_where (is_of_elem elem value) value }
{
    match (elem, value) {
        (Elem::Ref, Value::Null | Value::Ref(_)) => Some(value),
        (Elem::Int | Elem::Byte, Value::Int(_)) => Some(value),
        _ => None,
    }
}
