//! The heap that a test states at the end of its run.
ghost use Rattle.std.specs.Prelude.{◌≡◌, ◌↔◌, ◌++◌, IsTrue, IfOk, List, Some, None, MatchOption, slice_get};
ghost use Rattle.kb_heap.specs.declared.heap.Object.{Object};
ghost use Rattle.kb_heap.specs.Heap.{literal};
ghost use Rattle.kb_test.specs.Tests.{literal_objects};

use crate::NoMemory;
use kb_heap::{Heap, Object, Row};
use kb_rows::Held;
use std::alloc::Global;
use std::marker::Model;

/// Objects by their numbers, from 0.
pub trait Objects {
    /// The objects.
    ghost objects: { Self → List Object };

    /// The object of that number, if there is one.
    fn object(&self, number: usize) -> Option<&Object>
        ensures { MatchOption result (slice_get (objects self.now) number ≡ None) (λ object. slice_get (objects self.now) number ≡ Some object.now) };
}

impl Objects for Heap {
    ghost objects = { λ heap. heap.objects };

    fn object(&self, number: usize) -> Option<&Object> {
        self.objects.as_slice().get(number)
    }
}

/// A heap of input objects, literals and objects of the run. The literals are one object and a count of them, so that a test
/// takes no more room where the world has many.
#[derive(Drop)]
pub struct FinalHeap {
    inputs: Row<Object>,
    literals: usize,
    literal: Held<Object>,
    made: Row<Object>,
}

impl Model for FinalHeap {
    ghost use Rattle.std.specs.Prelude.{◌++◌, replicate};
    ghost use Rattle.kb_heap.specs.declared.heap.Heap.{Heap};

    ghost Value = { Heap };

    ghost view = { λ heap. record { objects = heap.inputs ++ (replicate heap.literals heap.literal ++ heap.made) } };
}

/// The object of a literal, held.
fn held_literal(alloc: Global) -> Result<Held<Object>, NoMemory>
    ensures { IfOk result (λ object. object ≡ literal) }
{
    Held::new(alloc, Object::literal(alloc)?)
}

impl FinalHeap {
    /// The heap of these input objects, so many literals, and these objects of the run.
    pub fn new(
        alloc: Global,
        inputs: Row<Object>,
        literals: u32,
        made: Row<Object>,
    ) -> Result<FinalHeap, NoMemory>
        ensures { IfOk result (λ heap. heap.objects ≡ inputs ++ (literal_objects literals ++ made)) }
    {
        let literal = held_literal(alloc)?;
        Ok(FinalHeap {
            inputs,
            literals: literals as usize,
            literal,
            made,
        })
    }

    /// Whether the heap has the same objects.
    pub fn is_heap(&self, other: &Heap) -> bool
        ensures { IsTrue result ↔ (self.now ≡ other.now) }
    {
        let mut number = 0;
        let mut rest = other.objects.as_slice();
        while let [first, others @ ..] = rest {
            let Some(object) = self.object(number) else {
                return false;
            };
            if !object.is_same(first) {
                return false;
            }
            rest = others;
            number += 1;
        }
        self.object(number).is_none()
    }
}

impl Objects for FinalHeap {
    ghost objects = { λ heap. heap.objects };

    fn object(&self, number: usize) -> Option<&Object> {
        let inputs = self.inputs.as_slice();
        if number < inputs.len() {
            return inputs.get(number);
        }
        let behind = number - inputs.len();
        if behind < self.literals {
            return Some(self.literal.get());
        }
        self.made.as_slice().get(behind - self.literals)
    }
}
