//! Frames (JVMS 8 section 2.6).

ghost use Rattle.std.specs.Prelude.{◌≡◌, IsTrue, [], ◌∷◌, ◌++◌, suc, length, drop, nat_le, reverse, take, false, Some, None, OnOk, OnSome, IfOk, IfSome, IfNone};
ghost use Rattle.std.specs.Option.{option_copied};
ghost use Rattle.kb_semantics.specs.Config.{behind, class_number, first_frame, local_of, has_room, with_local};
ghost use Rattle.kb_semantics.specs.Operands.{top_of};
ghost use Rattle.kb_semantics.specs.Ways.{counted, pushed};
ghost use Rattle.kb_semantics.specs.Looks.{only_where};

use crate::NoMemory;
use crate::locals::Locals;
use crate::value_stack::ValueStack;
use kb_class::{ClassId, MethodId};
use kb_heap::{Row, RunBounds, Value};
use kb_lookups::{behind, declaring_class, max_locals, max_stack};
use kb_semantics::World;
use std::alloc::Global;
use std::marker::Model;

/// A frame. Contracts see it as the definitions have it.
#[derive(Drop)]
pub struct Frame {
    method: MethodId,
    at: u32,
    locals: Locals,
    stack: ValueStack,
    transfers: u32,
}

impl Model for Frame {
    ghost use Rattle.kb_semantics.specs.Config.{Frame as PlainFrame};

    ghost Value = { PlainFrame };

    ghost view = { λ f. record { method = f.method; at = f.at; locals = f.locals; stack = f.stack; transfers = f.transfers } };
}

impl Frame {
    /// The frame of a method that begins with these arguments.
    pub fn begin(
        alloc: Global,
        world: &World,
        method: MethodId,
        args: &[Value],
    ) -> Result<Frame, NoMemory>
        ensures { IfOk result (λ f. f ≡ first_frame world.now method args.now) }
    {
        let locals = Locals::begin(alloc, args, usize::from(max_locals(world, method)))?;
        Ok(Frame {
            method,
            at: 0,
            locals,
            stack: ValueStack::new(alloc),
            transfers: 0,
        })
    }

    pub fn method(&self) -> MethodId
        ensures { result ≡ self.now.method }
    {
        self.method
    }

    /// The offset of the instruction.
    pub fn at(&self) -> u32
        ensures { result ≡ self.now.at }
    {
        self.at
    }

    /// The class that declares the method.
    pub fn class(&self, world: &World) -> ClassId
        ensures { result.0 ≡ class_number world.now self.now.method }
    {
        declaring_class(world, self.method)
    }

    /// Whether the method may have the frame's stack.
    pub fn is_allowed(&self, world: &World) -> bool
        ensures { result ≡ has_room world.now self.now.method (length self.now.stack) }
    {
        self.stack.len() <= usize::from(max_stack(world, self.method))
    }

    /// Whether it may have a stack with one value more.
    pub fn has_room(&self, world: &World) -> bool
        ensures { result ≡ has_room world.now self.now.method (suc (length self.now.stack)) }
    {
        self.stack.len() < usize::from(max_stack(world, self.method))
    }

    /// Whether the method may have a stack of one value.
    pub fn may_have_one(&self, world: &World) -> bool
        ensures { result ≡ has_room world.now self.now.method 1 }
    {
        max_stack(world, self.method) > 0
    }

    /// The value of a local, where it lies below the limit and was written.
    pub fn local(&self, world: &World, local: u16) -> Option<Value>
        ensures { result ≡ local_of world.now self.now local }
    {
        if local >= max_locals(world, self.method) {
            return None;
        }
        self.locals.get(usize::from(local))
    }

    /// Writes a local, where it lies below the limit: false where it does not.
    pub fn set_local(&mut self, world: &World, local: u16, value: Value) -> Result<bool, NoMemory>
        ensures locals { IfOk result (λ set. with_local world.now self.old local value ≡ only_where set self.new.locals) }
        ensures frame { OnOk result (self.new ≡ record self.old { locals = self.new.locals }) }
    {
        if local >= max_locals(world, self.method) {
            return Ok(false);
        }
        self.locals.set(usize::from(local), value)?;
        Ok(true)
    }

    /// Puts a value on the stack.
    pub fn push(&mut self, value: Value) -> Result<(), NoMemory>
        ensures { OnOk result (self.new ≡ record self.old { stack = value ∷ self.old.stack }) }
    {
        self.stack.push(value)
    }

    /// Puts values on the stack, the first one first.
    pub fn put(&mut self, values: &[Value]) -> Result<(), NoMemory>
        ensures { OnOk result (self.new ≡ record self.old { stack = reverse values.now ++ self.old.stack }) }
    {
        self.stack.put(values)
    }

    /// Its stack has that value and no other.
    pub fn hold(&mut self, value: Value) -> Result<(), NoMemory>
        ensures { OnOk result (self.new ≡ record self.old { stack = value ∷ [] }) }
    {
        self.stack.clear();
        self.stack.push(value)
    }

    /// Takes so many values off the top of the stack, and gives them from the lowest one on. None where there are fewer.
    pub fn take_top(&mut self, alloc: Global, count: usize) -> Result<Option<Row<Value>>, NoMemory>
        ensures top { IfOk result (λ top. top ≡ only_where (nat_le count (length self.old.stack)) (reverse (take count self.old.stack))) }
        ensures rest { IfOk result (λ top. OnSome top (self.new ≡ record self.old { stack = drop count self.old.stack })) }
        ensures frame { OnOk result (self.new ≡ record self.old { stack = self.new.stack }) }
    {
        self.stack.take_top(alloc, count)
    }

    /// Puts a result on the stack: none of void.
    pub fn give(&mut self, value: Option<Value>) -> Result<(), NoMemory>
        ensures { OnOk result (self.new ≡ record self.old { stack = pushed value self.old.stack }) }
    {
        match value {
            Some(value) => self.stack.push(value),
            None => Ok(()),
        }
    }

    /// The value on the top of the stack.
    pub fn top(&self) -> Option<Value>
        ensures { result ≡ top_of self.now.stack }
    {
        self.stack.top()
    }

    /// Takes the value off the top of the stack.
    pub fn pop(&mut self) -> Option<Value>
        ensures top { result ≡ top_of self.old.stack }
        ensures frame { self.new ≡ record self.old { stack = drop 1 self.old.stack } }
    {
        self.stack.pop()
    }

    /// Takes the two values off the top, the top first.
    pub fn top_two(&mut self) -> Option<(Value, Value)>
        ensures some { IfSome result (λ top. self.old ≡ record self.new { stack = top.0 ∷ top.1 ∷ self.new.stack }) }
        ensures none { IfNone result (nat_le 2 (length self.old.stack) ≡ false) }
        ensures frame { self.new ≡ record self.old { stack = self.new.stack } }
    {
        let first = self.pop()?;
        let second = self.pop()?;
        Some((first, second))
    }

    /// Takes the three values off the top, the top first.
    pub fn top_three(&mut self) -> Option<(Value, Value, Value)>
        ensures some { IfSome result (λ top. self.old ≡ record self.new { stack = top.0 ∷ top.1 ∷ top.2 ∷ self.new.stack }) }
        ensures none { IfNone result (nat_le 3 (length self.old.stack) ≡ false) }
        ensures frame { self.new ≡ record self.old { stack = self.new.stack } }
    {
        let (first, second) = self.top_two()?;
        let third = self.pop()?;
        Some((first, second, third))
    }

    /// Takes the four values off the top, the top first.
    pub fn top_four(&mut self) -> Option<(Value, Value, Value, Value)>
        ensures some { IfSome result (λ top. self.old ≡ record self.new { stack = top.0 ∷ top.1 ∷ top.2 ∷ top.3 ∷ self.new.stack }) }
        ensures none { IfNone result (nat_le 4 (length self.old.stack) ≡ false) }
        ensures frame { self.new ≡ record self.old { stack = self.new.stack } }
    {
        let (first, second) = self.top_two()?;
        let (third, fourth) = self.top_two()?;
        Some((first, second, third, fourth))
    }

    /// It goes on at an offset.
    pub fn go(&mut self, at: u32)
        ensures { self.new ≡ record self.old { at = at } }
    {
        self.at = at;
    }

    /// Control is transferred to an offset: false where that would be one transfer back too many.
    pub fn transfer(&mut self, bounds: &RunBounds, target: u32) -> bool
        ensures count { counted bounds.now self.old.at target self.old.transfers ≡ only_where result self.new.transfers }
        ensures frame { IsTrue result → self.new ≡ record self.old { at = target; transfers = self.new.transfers } }
    {
        if target > self.at {
            self.at = target;
            return true;
        }
        if self.transfers >= bounds.loops {
            return false;
        }
        self.at = target;
        self.transfers += 1;
        true
    }

    /// It goes on behind its invoke, with the result on its stack: false where it may not have it.
    pub fn resumes(&mut self, world: &World, value: Option<Value>) -> Result<bool, NoMemory>
        ensures room { IfOk result (λ room. room ≡ has_room world.now self.old.method (length (pushed value self.old.stack))) }
        ensures frame { IfOk result (λ room. IsTrue room → self.new ≡ record self.old { at = behind world.now self.old.method self.old.at; stack = pushed value self.old.stack }) }
    {
        let next = behind(world, self.method, self.at);
        self.give(value)?;
        if !self.is_allowed(world) {
            return Ok(false);
        }
        self.go(next);
        Ok(true)
    }
}
