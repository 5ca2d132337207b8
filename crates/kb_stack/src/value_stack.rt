//! An operand stack (JVMS 8 section 2.6.2).

ghost use Rattle.std.specs.Prelude.{◌≡◌, [], ◌∷◌, ◌++◌, length, drop, nat_le, reverse, take, IfOk, OnOk, OnErr, OnSome};
ghost use Rattle.kb_semantics.specs.Looks.{only_where};
ghost use Rattle.kb_semantics.specs.Operands.{top_of};

use crate::NoMemory;
use kb_heap::{Row, Value};
use std::alloc::Global;
use std::marker::Model;

/// A stack of values. Contracts see the list of its values from the top down.
#[derive(Drop)]
pub(crate) struct ValueStack {
    values: Vec<Value>,
}

impl Model for ValueStack {
    ghost use Rattle.std.specs.Prelude.{List, reverse};
    ghost use Rattle.kb_heap.specs.declared.heap.Value.{Value as Item};

    ghost Value = { List Item };

    ghost view = { λ s. reverse s.values.items };
}

impl ValueStack {
    pub(crate) fn new(alloc: Global) -> ValueStack
        ensures { result ≡ [] }
    {
        ValueStack {
            values: Vec::new(alloc),
        }
    }

    pub(crate) fn len(&self) -> usize
        ensures { result ≡ length self.now }
    {
        self.values.len()
    }

    /// Puts values on the top, the first one first.
    pub(crate) fn put(&mut self, values: &[Value]) -> Result<(), NoMemory>
        ensures { OnOk result (self.new ≡ reverse values.now ++ self.old) }
    {
        self.values.extend_from_slice(values)?;
        Ok(())
    }

    pub(crate) fn push(&mut self, value: Value) -> Result<(), NoMemory>
        ensures ok { OnOk result (self.new ≡ value ∷ self.old) }
        ensures err { OnErr result (self.new ≡ self.old) }
    {
        match self.values.push(value) {
            Ok(()) => Ok(()),
            Err(_) => Err(NoMemory),
        }
    }

    pub(crate) fn top(&self) -> Option<Value>
        ensures { result ≡ top_of self.now }
    {
        self.values.last().copied()
    }

    pub(crate) fn clear(&mut self)
        ensures { self.new ≡ [] }
    {
        self.values.clear();
    }

    /// Takes so many values off the top, and gives them from the lowest one on. None where there are fewer.
    #[tactic(auto, using(crate::proofs::Stacks::top_taken, crate::proofs::Stacks::rest_left))]
    pub(crate) fn take_top(
        &mut self,
        alloc: Global,
        count: usize,
    ) -> Result<Option<Row<Value>>, NoMemory>
        ensures top { IfOk result (λ top. top ≡ only_where (nat_le count (length self.old)) (reverse (take count self.old))) }
        ensures rest { IfOk result (λ top. OnSome top (self.new ≡ drop count self.old)) }
    {
        if count > self.values.len() {
            return Ok(None);
        }
        let place = self.values.len() - count;
        let top = self.values[place..].to_vec(alloc)?;
        self.values.truncate(place);
        Ok(Some(Row::from_vec(top)))
    }

    /// Takes the value off the top.
    pub(crate) fn pop(&mut self) -> Option<Value>
        ensures top { result ≡ top_of self.old }
        ensures rest { self.new ≡ drop 1 self.old }
    {
        self.values.pop()
    }
}
