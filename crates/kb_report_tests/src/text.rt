//! The tests of a report's paths.

ghost use Rattle.std.specs.Prelude.{◌≡◌, ◌+◌, ◌++◌, ◌≤◌, IfOk, OnOk, drop, length, take};
ghost use Rattle.kb_class.specs.declared.ids.MethodId.{MethodId};
ghost use Rattle.kb_picture.specs.Carried.{EachPath};
ghost use Rattle.kb_names.specs.Targets.{IsTarget};
ghost use Rattle.kb_picture.specs.declared.path.Leaf.TheVariants.{Ended as EndedLeaf};
ghost use Rattle.kb_test_lines.specs.Lines.{IsRunBounds};
ghost use Rattle.kb_test.specs.Refusals.{Appends};
ghost use Rattle.kb_test.specs.Tests.{IsTest, SpellsTests, literal_objects};
ghost use Rattle.kb_report_tests.specs.Tests.{IsCarried, literals_in, path_tests, test_of, tests_of};

use crate::NoMemory;
use crate::ranges::tell_numbers;
use kb_heap::{Ending, Heap, Input, Object};
use kb_names::Target;
use kb_picture::{Ended, Leaf, Path, ending_at, final_heaps_are_whole, places};
use kb_report_text::Report;
use kb_rows::{Held, Row};
use kb_test::{FinalHeap, Test, write_test};
use kb_world::World;
use std::alloc::Global;

/// The text of the tests of a report in its world: that of each ended path, in order. Refused only where memory runs out.
pub fn tests_text(alloc: Global, world: &World, report: &Report) -> Result<Vec<u8>, NoMemory>
    requires target { IsTarget report.now.target }
    requires bounds { IsRunBounds report.now.bounds.run }
    requires carried { (id : MethodId) × EachPath (IsCarried world.now id) report.now.leaves }
    ensures { IfOk result (λ text. SpellsTests (literals_in world.now) (tests_of world.now report.now) text.items) }
{
    let mut text = Vec::new(alloc);
    let mut rest = report.leaves.as_slice();
    while let [path, others @ ..] = rest {
        write_path_tests(alloc, world, report, path, &mut text)?;
        rest = others;
    }
    Ok(text)
}

/// Appends the test of a path, where it has ended.
fn write_path_tests(
    alloc: Global,
    world: &World,
    report: &Report,
    path: &Path,
    text: &mut Vec<u8>,
) -> Result<(), NoMemory>
    requires target { IsTarget report.now.target }
    requires bounds { IsRunBounds report.now.bounds.run }
    requires carried { (id : MethodId) × IsCarried world.now id path.now }
    ensures { OnOk result (Appends (literals_in world.now) (path_tests world.now report.now path.now path.now.leaf) text.old.items text.new.items) }
{
    let Leaf::Ended(ended) = &path.leaf else {
        return Ok(());
    };
    let test = test_of(alloc, world, report, path, ended)?;
    write_test(alloc, test.get(), world.literals(), text)?;
    Ok(())
}

/// The test of an ended path.
fn test_of(
    alloc: Global,
    world: &World,
    report: &Report,
    path: &Path,
    ended: &Ended,
) -> Result<Held<Test>, NoMemory>
    requires target { IsTarget report.now.target }
    requires bounds { IsRunBounds report.now.bounds.run }
    requires leaf { path.now.leaf ≡ EndedLeaf ended.now }
    requires carried { (id : MethodId) × IsCarried world.now id path.now }
    ensures test { IfOk result (λ test. test ≡ test_of world.now report.now path.now ended.now) }
    ensures is { IfOk result (IsTest (literals_in world.now)) }
{
    final_heaps_are_whole();
    let Some(places) = places(alloc, path, &ended.input)? else {
        unreachable!()
    };
    let (ending, heap) = ending_at(alloc, world, path, &ended.input, &places)?;
    tell_numbers(&ended.input, &ending, &heap);
    let test = test_with(alloc, report, &ended.input, ending, &heap, world.literals())?;
    Ok(test)
}

/// The test that ends so, in a box of its own. The first objects of its heap are those of the input, and the next so many literals.
fn test_with(
    alloc: Global,
    report: &Report,
    input: &Input,
    ending: Ending,
    heap: &Heap,
    literals: u32,
) -> Result<Held<Test>, NoMemory>
    requires room { length input.now.heap.objects + literals ≤ length heap.now.objects }
    requires parts { heap.now.objects ≡ take (length input.now.heap.objects) heap.now.objects ++ (literal_objects literals ++ drop (length input.now.heap.objects + literals) heap.now.objects) }
    ensures { IfOk result (λ test. test ≡ record { target = report.now.target; bounds = report.now.bounds.run; input = input.now; ending = ending; heap = heap.now }) }
{
    let parts = parts_of(alloc, report, input, heap, literals)?.into_inner();
    Held::new(
        alloc,
        Test {
            target: parts.target,
            bounds: report.bounds.run,
            input: parts.input,
            ending,
            heap: parts.heap,
        },
    )
}

/// What a test has of its method, its input and the heap at its end.
#[derive(Drop)]
struct Parts {
    target: Target,
    input: Input,
    heap: FinalHeap,
}

/// Copies of these. The first objects of the heap are those of the input, and the next so many literals.
fn parts_of(
    alloc: Global,
    report: &Report,
    input: &Input,
    heap: &Heap,
    literals: u32,
) -> Result<Held<Parts>, NoMemory>
    requires room { length input.now.heap.objects + literals ≤ length heap.now.objects }
    requires parts { heap.now.objects ≡ take (length input.now.heap.objects) heap.now.objects ++ (literal_objects literals ++ drop (length input.now.heap.objects + literals) heap.now.objects) }
    ensures { IfOk result (λ parts. parts ≡ record { target = report.now.target; input = input.now; heap = heap.now }) }
{
    let inputs = input.heap.objects.as_slice().len();
    let heap = final_heap(alloc, heap, inputs, literals)?;
    let target = report.target.copied(alloc)?;
    let input = input.copied(alloc)?;
    Held::new(
        alloc,
        Parts {
            target,
            input,
            heap,
        },
    )
}

/// The heap of a test, whose first objects are so many of the input, and the next so many literals.
fn final_heap(
    alloc: Global,
    heap: &Heap,
    inputs: usize,
    literals: u32,
) -> Result<FinalHeap, NoMemory>
    requires room { inputs + literals ≤ length heap.now.objects }
    requires parts { heap.now.objects ≡ take inputs heap.now.objects ++ (literal_objects literals ++ drop (inputs + literals) heap.now.objects) }
    ensures { IfOk result (λ built. built ≡ heap.now) }
{
    let objects = heap.objects.as_slice();
    let first = copied_objects(alloc, &objects[..inputs])?;
    let made = copied_objects(alloc, &objects[inputs + literals as usize..])?;
    FinalHeap::new(alloc, first, literals, made)
}

fn copied_objects(alloc: Global, objects: &[Object]) -> Result<Row<Object>, NoMemory>
    ensures { IfOk result (λ copied. copied ≡ objects.now) }
{
    let mut copied = Row::new(alloc);
    for object in objects {
        copied.push(object.copied(alloc)?)?;
    }
    Ok(copied)
}
