//! From what a text says to the test: objects get their numbers in the heap.
ghost use Rattle.std.specs.Prelude.{◌≡◌, IfOk};
ghost use Rattle.kb_test_lines.specs.Lines.{bound_of};
ghost use Rattle.kb_test.specs.Tests.{number_of, value_of, values_of, objects_of, last_objects, ending_of, final_heap_of, test_with, test_of};

use crate::script::Script;
use crate::{FinalHeap, NoMemory, Test};
use kb_heap::{Bound, Ending, Heap, Input, Object, Row, RunBounds, Value};
use kb_names::Target;
use kb_rows::Held;
use kb_test_lines::{Listed, Outcome, Reference, RunBound, Word};
use std::alloc::Global;

// How many input objects and how many literals stand in the heap before the objects of the run.
#[derive(Clone, Copy)]
pub(crate) struct Numbering {
    pub alloc: Global,
    pub inputs: u32,
    pub literals: u32,
}

impl Numbering {
    // The object's number in the heap.
    fn number(self, reference: Reference) -> Result<u32, NoMemory>
        ensures { IfOk result (λ number. number ≡ number_of self.inputs self.literals reference) }
    {
        let number = match reference {
            Reference::Input(number) => Some(number),
            Reference::Literal(number) => self.inputs.checked_add(number),
            Reference::Made(number) => match self.inputs.checked_add(self.literals) {
                Some(before) => before.checked_add(number),
                None => None,
            },
        };
        match number {
            Some(number) => Ok(number),
            None => Err(NoMemory),
        }
    }

    fn value(self, word: Word) -> Result<Value, NoMemory>
        ensures { IfOk result (λ value. value ≡ value_of self.inputs self.literals word) }
    {
        match word {
            Word::Int(number) => Ok(Value::Int(number)),
            Word::Null => Ok(Value::Null),
            Word::Object(reference) => Ok(Value::Ref(self.number(reference)?)),
        }
    }

    fn values(self, words: &[Word]) -> Result<Row<Value>, NoMemory>
        ensures { IfOk result (λ values. values ≡ values_of self.inputs self.literals words.now) }
    {
        let mut values = Row::new(self.alloc);
        for word in words {
            values.push(self.value(*word)?)?;
        }
        Ok(values)
    }

    fn objects(self, listed: &[Listed]) -> Result<Row<Object>, NoMemory>
        ensures { IfOk result (λ objects. objects ≡ objects_of self.inputs self.literals listed.now) }
    {
        let mut objects = Row::new(self.alloc);
        for one in listed {
            let kind = one.kind.copied(self.alloc)?;
            let values = self.values(one.values.as_slice())?;
            objects.push(Object { kind, values })?;
        }
        Ok(objects)
    }

    // The input objects with their last values.
    fn last_objects(self, inputs: &[Listed], outs: &[Row<Word>]) -> Result<Row<Object>, NoMemory>
        ensures { IfOk result (λ objects. objects ≡ last_objects self.inputs self.literals inputs.now outs.now) }
    {
        let mut objects = Row::new(self.alloc);
        let mut kinds = inputs;
        let mut rest = outs;
        while let [listed, listeds @ ..] = kinds {
            let [words, others @ ..] = rest else {
                return Ok(objects);
            };
            let kind = listed.kind.copied(self.alloc)?;
            let values = self.values(words.as_slice())?;
            objects.push(Object { kind, values })?;
            kinds = listeds;
            rest = others;
        }
        Ok(objects)
    }

    fn ending(self, outcome: &Outcome) -> Result<Ending, NoMemory>
        ensures { IfOk result (λ ending. ending ≡ ending_of self.inputs self.literals outcome.now) }
    {
        match outcome {
            Outcome::Returns(None) => Ok(Ending::Returned(None)),
            Outcome::Returns(Some(word)) => Ok(Ending::Returned(Some(self.value(*word)?))),
            Outcome::Throws(reference) => Ok(Ending::Threw(self.number(*reference)?)),
            Outcome::IllTyped(place) => Ok(Ending::IllTyped(place.get().copied(self.alloc)?)),
            Outcome::Past(bound) => Ok(Ending::Past(bound_of(*bound))),
        }
    }

    fn input(self, script: &Script) -> Result<Input, NoMemory>
        ensures { IfOk result (λ input. input ≡ (test_with self.inputs self.literals script.now).input) }
    {
        let objects = self.objects(script.inputs.as_slice())?;
        let args = self.values(script.args.as_slice())?;
        Ok(Input {
            heap: Heap { objects },
            args,
        })
    }

    fn final_heap(self, script: &Script) -> Result<FinalHeap, NoMemory>
        ensures { IfOk result (λ heap. heap ≡ final_heap_of self.inputs self.literals script.now) }
    {
        let last = self.last_objects(script.inputs.as_slice(), script.outs.as_slice())?;
        let made = self.objects(script.news.as_slice())?;
        FinalHeap::new(self.alloc, last, self.literals, made)
    }

    fn target(self, script: &Script) -> Result<Held<Target>, NoMemory>
        ensures { IfOk result (λ target. target ≡ script.now.target) }
    {
        let target = script.target.get().copied(self.alloc)?;
        Held::new(self.alloc, target)
    }

    fn held_ending(self, outcome: &Outcome) -> Result<Held<Ending>, NoMemory>
        ensures { IfOk result (λ ending. ending ≡ ending_of self.inputs self.literals outcome.now) }
    {
        let ending = self.ending(outcome)?;
        Held::new(self.alloc, ending)
    }

    fn test(self, script: &Script) -> Result<Test, NoMemory>
        ensures { IfOk result (λ test. test ≡ test_with self.inputs self.literals script.now) }
    {
        let target = self.target(script)?;
        let ending = self.held_ending(&script.outcome)?;
        let input = self.input(script)?;
        let heap = self.final_heap(script)?;
        Ok(test_of_parts(target, script.bounds, input, ending, heap))
    }
}

fn test_of_parts(
    target: Held<Target>,
    bounds: RunBounds,
    input: Input,
    ending: Held<Ending>,
    heap: FinalHeap,
) -> Test
    ensures { result ≡ record { target = target; bounds = bounds; input = input; ending = ending; heap = heap } }
{
    Test {
        target: target.into_inner(),
        bounds,
        input,
        ending: ending.into_inner(),
        heap,
    }
}

fn bound_of(bound: RunBound) -> Bound
    ensures { result ≡ bound_of bound }
{
    match bound {
        RunBound::Alloc => Bound::Alloc,
        RunBound::Loops => Bound::Loops,
        RunBound::Depth => Bound::Depth,
        RunBound::Steps => Bound::Steps,
    }
}

// The test of that text. A heap that an object's number of 32 bits can't number counts as out of memory.
pub(crate) fn settled(alloc: Global, literals: u32, script: &Script) -> Result<Test, NoMemory>
    ensures { IfOk result (λ test. test ≡ test_of literals script.now) }
{
    let Ok(inputs) = u32::try_from(script.inputs.as_slice().len()) else {
        return Err(NoMemory);
    };
    let numbering = Numbering {
        alloc,
        inputs,
        literals,
    };
    numbering.test(script)
}
