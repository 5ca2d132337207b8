//! Tests are written.
ghost use Rattle.std.specs.Prelude.{◌≡◌, ◌≤◌, ◌∷◌, [], ◌++◌, length, map, take, ◌<◌, ◌^◌, ℕ, List, IsTrue, OnOk, OnErr};
ghost use Rattle.std.specs.Fmt.{decimal};
ghost use Rattle.kb_grammar.specs.Lines.{lines_text};
ghost use Rattle.kb_test_lines.specs.Words.{reference_text, word_text, words_text};
ghost use Rattle.kb_test_lines.specs.Lines.{listed_text, line_text, texts_of};
ghost use Rattle.kb_test.specs.Scripts.{in_lines, out_lines, new_lines};
ghost use Rattle.kb_test.specs.Tests.{IsTest, SpellsTests};
ghost use Rattle.kb_test.specs.declared.test_case.Test.{Test};
ghost use Rattle.kb_test.specs.Refusals.{Appends};
ghost use Rattle.kb_test.specs.Writing.{reference_of, word_of, words_of, listed_of, listeds_of, outs_of, news_of, ending_text, run_text, test_text};
ghost use Rattle.kb_test_lines.specs.declared.lines.Line.TheVariants.{Method, Limit, Arg, In, Out, New};

use crate::{FinalHeap, NoMemory, Objects, Test};
use kb_heap::{Ending, Object, RunBounds, Value};
use kb_heap_words::{bound_name, write_exact, write_place};
use kb_names::{Target, write_target};
use kb_test_lines::Reference;
use std::alloc::Global;

// The last number of 32 bits.
const LAST_NUMBER: usize = 4_294_967_295;

// How many input objects and how many literals stand in a heap before the objects of the run.
#[derive(Clone, Copy)]
struct Counts {
    alloc: Global,
    inputs: u32,
    literals: u32,
}

/// Appends the text of the test, for a world of `literals` literals. The test is one that the grammar of texts can
/// hold: its heap begins with objects of the exact types of the input's objects and goes on with the literals, each a
/// `java/lang/String` without values; every object that is named is in the heap; the bounds are in their ranges
/// (`alloc` up to 1,024, `loops` up to 1,000, `depth` from 1 to 256, `steps` from 1 to 100,000); and the ending is
/// not past one of the bounds of an exploration.
pub fn write_test(
    alloc: Global,
    test: &Test,
    literals: u32,
    into: &mut Vec<u8>,
) -> Result<(), NoMemory>
    requires { IsTest literals test.now }
    ensures ok { OnOk result (Appends literals (test.now ∷ []) into.old.items into.new.items) }
    ensures err { OnErr result (into.new.items ≡ into.old.items) }
{
    if !is_numbered(&test.heap) {
        return Err(NoMemory);
    }
    let start = into.len();
    match append_test(alloc, test, literals, into) {
        Ok(()) => Ok(()),
        Err(NoMemory) => {
            into.truncate(start);
            Err(NoMemory)
        }
    }
}

// Whether each object has a number of 32 bits.
fn is_numbered(heap: &FinalHeap) -> bool
    ensures { IsTrue result → length heap.now.objects ≤ 2 ^ 32 }
{
    match heap.object(LAST_NUMBER) {
        Some(_) => false,
        None => true,
    }
}

/// Appends the lines that say how a run has ended: its ending, the last values of the input objects, of which the heap
/// begins with `inputs`, and the objects of the run.
pub fn write_run<O: Objects>(
    alloc: Global,
    ending: &Ending,
    heap: &O,
    inputs: u32,
    literals: u32,
    into: &mut Vec<u8>,
) -> Result<(), NoMemory>
    ensures ok { OnOk result (into.new.items ≡ into.old.items ++ run_text inputs literals ending.now (O.objects heap.now)) }
    ensures err { OnErr result (into.new.items ≡ into.old.items) }
{
    let start = into.len();
    let counts = Counts {
        alloc,
        inputs,
        literals,
    };
    match counts.append_run(ending, heap, into) {
        Ok(()) => Ok(()),
        Err(NoMemory) => {
            into.truncate(start);
            Err(NoMemory)
        }
    }
}

/// A list of tests has one text, so what is read is written as it was.
pub fn tests_have_one_text()
    ensures { (literals : ℕ) (tests : List Test) (text other : List ℕ) → SpellsTests literals tests text → SpellsTests literals tests other → text ≡ other }
{}

// The functions below leave, after an `Err`, a part of what they write.

fn append_test(
    alloc: Global,
    test: &Test,
    literals: u32,
    into: &mut Vec<u8>,
) -> Result<(), NoMemory>
    ensures ok { OnOk result (into.new.items ≡ into.old.items ++ test_text literals test.now) }
    ensures kept { take (length into.old.items) into.new.items ≡ into.old.items }
{
    let inputs = test.input.heap.objects.as_slice();
    let Ok(count) = u32::try_from(inputs.len()) else {
        return Err(NoMemory);
    };
    let counts = Counts {
        alloc,
        inputs: count,
        literals,
    };
    append_method_line(&test.target, into)?;
    append_bounds_line(alloc, &test.bounds, into)?;
    counts.append_args(test.input.args.as_slice(), into)?;
    counts.append_inputs(inputs, into)?;
    counts.append_run(&test.ending, &test.heap, into)?;
    append(b"end\n", into)
}

fn append(piece: &[u8], into: &mut Vec<u8>) -> Result<(), NoMemory>
    ensures ok { OnOk result (into.new.items ≡ into.old.items ++ piece.now) }
    ensures err { OnErr result (into.new.items ≡ into.old.items) }
{
    match into.extend_from_slice(piece) {
        Ok(()) => Ok(()),
        Err(_) => Err(NoMemory),
    }
}

fn append_number(alloc: Global, number: u32, into: &mut Vec<u8>) -> Result<(), NoMemory>
    ensures ok { OnOk result (into.new.items ≡ into.old.items ++ decimal number) }
    ensures kept { take (length into.old.items) into.new.items ≡ into.old.items }
{
    let digits = format!(in alloc; "{number}")?;
    append(digits.as_bytes(), into)
}

#[tactic(auto, unfolding(kb_test_lines::specs::Lines::line_text))]
fn append_method_line(target: &Target, into: &mut Vec<u8>) -> Result<(), NoMemory>
    ensures ok { OnOk result (into.new.items ≡ into.old.items ++ (line_text (Method target.now) ++ 10 ∷ [])) }
    ensures kept { take (length into.old.items) into.new.items ≡ into.old.items }
{
    append(b"test ", into)?;
    write_target(target, into)?;
    append(b"\n", into)
}

#[tactic(auto, unfolding(kb_test_lines::specs::Lines::line_text, kb_test_lines::specs::Lines::bounds_text))]
fn append_bounds_line(alloc: Global, bounds: &RunBounds, into: &mut Vec<u8>) -> Result<(), NoMemory>
    ensures ok { OnOk result (into.new.items ≡ into.old.items ++ (line_text (Limit bounds.now) ++ 10 ∷ [])) }
    ensures kept { take (length into.old.items) into.new.items ≡ into.old.items }
{
    let line = format!(in alloc;
        "bounds alloc {} loops {} depth {} steps {}",
        bounds.alloc, bounds.loops, bounds.depth, bounds.steps
    )?;
    append(line.as_bytes(), into)?;
    append(b"\n", into)
}

impl Counts {
    fn reference(self, object: u32) -> Reference
        ensures { result ≡ reference_of self.inputs self.literals object }
    {
        if object < self.inputs {
            return Reference::Input(object);
        }
        let behind = object - self.inputs;
        if behind < self.literals {
            return Reference::Literal(behind);
        }
        Reference::Made(behind - self.literals)
    }

    #[tactic(auto, unfolding(kb_test_lines::specs::Words::reference_text))]
    fn append_reference(self, object: u32, into: &mut Vec<u8>) -> Result<(), NoMemory>
        ensures ok { OnOk result (into.new.items ≡ into.old.items ++ reference_text (reference_of self.inputs self.literals object)) }
        ensures kept { take (length into.old.items) into.new.items ≡ into.old.items }
    {
        match self.reference(object) {
            Reference::Input(number) => {
                append(b"i", into)?;
                append_number(self.alloc, number, into)
            }
            Reference::Literal(number) => {
                append(b"s", into)?;
                append_number(self.alloc, number, into)
            }
            Reference::Made(number) => {
                append(b"n", into)?;
                append_number(self.alloc, number, into)
            }
        }
    }

    #[tactic(auto, unfolding(kb_test_lines::specs::Words::word_text))]
    fn append_value(self, value: &Value, into: &mut Vec<u8>) -> Result<(), NoMemory>
        ensures ok { OnOk result (into.new.items ≡ into.old.items ++ word_text (word_of self.inputs self.literals value.now)) }
        ensures kept { take (length into.old.items) into.new.items ≡ into.old.items }
    {
        match value {
            Value::Int(number) => {
                let digits = format!(in self.alloc; "{number}")?;
                append(digits.as_bytes(), into)
            }
            Value::Null => append(b"null", into),
            Value::Ref(object) => self.append_reference(*object, into),
        }
    }

    // Each value with a space before it.
    fn append_values(self, values: &[Value], into: &mut Vec<u8>) -> Result<(), NoMemory>
        ensures ok { OnOk result (into.new.items ≡ into.old.items ++ words_text (words_of self.inputs self.literals values.now)) }
        ensures kept { take (length into.old.items) into.new.items ≡ into.old.items }
    {
        let mut rest = values;
        while let [first, others @ ..] = rest {
            append(b" ", into)?;
            self.append_value(first, into)?;
            rest = others;
        }
        Ok(())
    }

    #[tactic(auto, unfolding(kb_test_lines::specs::Lines::line_text))]
    fn append_arg_line(self, value: &Value, into: &mut Vec<u8>) -> Result<(), NoMemory>
        ensures ok { OnOk result (into.new.items ≡ into.old.items ++ (line_text (Arg (word_of self.inputs self.literals value.now)) ++ 10 ∷ [])) }
        ensures kept { take (length into.old.items) into.new.items ≡ into.old.items }
    {
        append(b"arg ", into)?;
        self.append_value(value, into)?;
        append(b"\n", into)
    }

    fn append_args(self, args: &[Value], into: &mut Vec<u8>) -> Result<(), NoMemory>
        ensures ok { OnOk result (into.new.items ≡ into.old.items ++ lines_text (texts_of (map Arg (words_of self.inputs self.literals args.now)))) }
        ensures kept { take (length into.old.items) into.new.items ≡ into.old.items }
    {
        let mut rest = args;
        while let [first, others @ ..] = rest {
            self.append_arg_line(first, into)?;
            rest = others;
        }
        Ok(())
    }

    // An object: its exact type and its values.
    fn append_object(self, object: &Object, into: &mut Vec<u8>) -> Result<(), NoMemory>
        ensures ok { OnOk result (into.new.items ≡ into.old.items ++ listed_text (listed_of self.inputs self.literals object.now)) }
        ensures kept { take (length into.old.items) into.new.items ≡ into.old.items }
    {
        write_exact(&object.kind, into)?;
        self.append_values(object.values.as_slice(), into)
    }

    #[tactic(auto, unfolding(kb_test_lines::specs::Lines::line_text))]
    fn append_in_line(
        self,
        number: u32,
        object: &Object,
        into: &mut Vec<u8>,
    ) -> Result<(), NoMemory>
        ensures ok { OnOk result (into.new.items ≡ into.old.items ++ (line_text (In number (listed_of self.inputs self.literals object.now)) ++ 10 ∷ [])) }
        ensures kept { take (length into.old.items) into.new.items ≡ into.old.items }
    {
        append(b"in i", into)?;
        append_number(self.alloc, number, into)?;
        append(b" ", into)?;
        self.append_object(object, into)?;
        append(b"\n", into)
    }

    #[tactic(auto, unfolding(kb_test_lines::specs::Lines::line_text))]
    fn append_new_line(
        self,
        number: u32,
        object: &Object,
        into: &mut Vec<u8>,
    ) -> Result<(), NoMemory>
        ensures ok { OnOk result (into.new.items ≡ into.old.items ++ (line_text (New number (listed_of self.inputs self.literals object.now)) ++ 10 ∷ [])) }
        ensures kept { take (length into.old.items) into.new.items ≡ into.old.items }
    {
        append(b"new n", into)?;
        append_number(self.alloc, number, into)?;
        append(b" ", into)?;
        self.append_object(object, into)?;
        append(b"\n", into)
    }

    fn append_inputs(self, objects: &[Object], into: &mut Vec<u8>) -> Result<(), NoMemory>
        requires { length objects.now < 2 ^ 32 }
        ensures ok { OnOk result (into.new.items ≡ into.old.items ++ lines_text (texts_of (in_lines 0 (listeds_of self.inputs self.literals objects.now)))) }
        ensures kept { take (length into.old.items) into.new.items ≡ into.old.items }
    {
        let mut number: u32 = 0;
        let mut rest = objects;
        while let [first, others @ ..] = rest {
            self.append_in_line(number, first, into)?;
            rest = others;
            number += 1;
        }
        Ok(())
    }

    #[tactic(auto, unfolding(crate::specs::Writing::ending_text))]
    fn append_ending(self, ending: &Ending, into: &mut Vec<u8>) -> Result<(), NoMemory>
        ensures ok { OnOk result (into.new.items ≡ into.old.items ++ ending_text self.inputs self.literals ending.now) }
        ensures kept { take (length into.old.items) into.new.items ≡ into.old.items }
    {
        match ending {
            Ending::Returned(None) => append(b"returns", into),
            Ending::Returned(Some(value)) => {
                append(b"returns ", into)?;
                self.append_value(value, into)
            }
            Ending::Threw(object) => {
                append(b"throws ", into)?;
                self.append_reference(*object, into)
            }
            Ending::IllTyped(place) => {
                append(b"illtyped ", into)?;
                write_place(self.alloc, place, into)
            }
            Ending::Past(bound) => {
                append(b"past ", into)?;
                append(bound_name(*bound).as_bytes(), into)
            }
        }
    }

    #[tactic(auto, unfolding(kb_test_lines::specs::Lines::line_text))]
    fn append_out_line(
        self,
        number: u32,
        values: &[Value],
        into: &mut Vec<u8>,
    ) -> Result<(), NoMemory>
        ensures ok { OnOk result (into.new.items ≡ into.old.items ++ (line_text (Out number (words_of self.inputs self.literals values.now)) ++ 10 ∷ [])) }
        ensures kept { take (length into.old.items) into.new.items ≡ into.old.items }
    {
        append(b"out i", into)?;
        append_number(self.alloc, number, into)?;
        self.append_values(values, into)?;
        append(b"\n", into)
    }

    fn append_outs<O: Objects>(self, heap: &O, into: &mut Vec<u8>) -> Result<(), NoMemory>
        ensures ok { OnOk result (into.new.items ≡ into.old.items ++ lines_text (texts_of (out_lines 0 (outs_of self.inputs self.literals (O.objects heap.now))))) }
        ensures kept { take (length into.old.items) into.new.items ≡ into.old.items }
    {
        let mut number: u32 = 0;
        while number < self.inputs {
            let Some(object) = heap.object(number as usize) else {
                return Ok(());
            };
            self.append_out_line(number, object.values.as_slice(), into)?;
            number += 1;
        }
        Ok(())
    }

    // More objects than a number of 32 bits can number count as out of memory.
    fn append_news<O: Objects>(self, heap: &O, into: &mut Vec<u8>) -> Result<(), NoMemory>
        ensures ok { OnOk result (into.new.items ≡ into.old.items ++ lines_text (texts_of (new_lines 0 (news_of self.inputs self.literals (O.objects heap.now))))) }
        ensures kept { take (length into.old.items) into.new.items ≡ into.old.items }
    {
        let before = self.inputs as usize + self.literals as usize;
        let mut number: u32 = 0;
        while let Some(object) = heap.object(before + number as usize) {
            self.append_new_line(number, object, into)?;
            let Some(next) = number.checked_add(1) else {
                return Err(NoMemory);
            };
            number = next;
        }
        Ok(())
    }

    // The ending, the last values of the input objects, and the objects of the run.
    fn append_run<O: Objects>(
        self,
        ending: &Ending,
        heap: &O,
        into: &mut Vec<u8>,
    ) -> Result<(), NoMemory>
        ensures ok { OnOk result (into.new.items ≡ into.old.items ++ run_text self.inputs self.literals ending.now (O.objects heap.now)) }
        ensures kept { take (length into.old.items) into.new.items ≡ into.old.items }
    {
        self.append_ending(ending, into)?;
        append(b"\n", into)?;
        self.append_outs(heap, into)?;
        self.append_news(heap, into)
    }
}
