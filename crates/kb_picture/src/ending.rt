//! What an ended path states of one of its instances.
ghost use Rattle.std.specs.Prelude.{◌≡◌, ◌+◌, ◌++◌, Some, IfOk, OnOk, map, fold, replicate};
ghost use Rattle.kb_heap.specs.Heap.{with_value, with_object, literal};
ghost use Rattle.kb_picture.specs.declared.path.Ended.{Ended as Stated};
ghost use Rattle.kb_picture.specs.declared.path.Leaf.TheVariants.{Ended as EndedLeaf};
ghost use Rattle.kb_picture.specs.Places.{places_of};
ghost use Rattle.kb_picture.specs.Endings.{place_at, out_value, number_of, ending_at, with_write, with_write_in, made_object, heap_at, reading_of, ending_of, final_heap_of};
ghost use Rattle.kb_picture.specs.Readings.{as_read};

use crate::NoMemory;
use crate::path::{Ended, Leaf, Made, Out, Path, SymEnding, Write};
use crate::picture::{Origin, PlaceLists};
use crate::values::{operand_value, term_values, variable_values};
use kb_heap::{Ending, Heap, Input, Object, Value};
use kb_rows::Row;
use kb_semantics::World;
use std::alloc::Global;

/// What an input gives to the symbolic values of a path: the places of the picture's objects and locations, the values of the
/// variables and the terms, and how many objects and literals stand before those that the run makes.
#[derive(Drop)]
struct Reading<'a> {
    places: &'a PlaceLists,
    variables: Row<i32>,
    terms: Row<i32>,
    inputs: u32,
    literals: u32,
}

/// How the run ends and the heap that it leaves, as the ended path states them for an instance, where `places` are those that
/// [`crate::places`] gives for the two. More objects than a `u32` can number count as out of memory.
pub fn ending_at(
    alloc: Global,
    world: &World,
    path: &Path,
    input: &Input,
    places: &PlaceLists,
) -> Result<(Ending, Heap), NoMemory>
    requires ended { (ended : Stated) × (path.now.leaf ≡ EndedLeaf ended) }
    requires placed { places_of path.now.picture input.now ≡ Some places.now }
    ensures ending { IfOk result (λ end. (ended : Stated) → path.now.leaf ≡ EndedLeaf ended → end.0 ≡ ending_of world.now path.now ended input.now) }
    ensures heap { IfOk result (λ end. (ended : Stated) → path.now.leaf ≡ EndedLeaf ended → end.1 ≡ final_heap_of world.now path.now ended input.now) }
{
    let Leaf::Ended(ended) = &path.leaf else {
        unreachable!()
    };
    let reading = reading_of(alloc, world, path, input, places)?;
    let end = reading.end(alloc, &input.heap, ended)?;
    Ok(end)
}

fn reading_of<'a>(
    alloc: Global,
    world: &World,
    path: &Path,
    input: &Input,
    places: &'a PlaceLists,
) -> Result<Reading<'a>, NoMemory>
    requires { places_of path.now.picture input.now ≡ Some places.now }
    ensures { IfOk result (λ reading. as_read reading ≡ reading_of world.now path.now input.now) }
{
    let variables = variable_values(alloc, &path.picture, input, places.objects.as_slice())?;
    let terms = term_values(alloc, variables.as_slice(), path.terms.as_slice())?;
    let Ok(inputs) = u32::try_from(input.heap.objects.as_slice().len()) else {
        return Err(NoMemory);
    };
    Ok(Reading {
        places,
        variables,
        terms,
        inputs,
        literals: world.literals(),
    })
}

impl<'a> Reading<'a> {
    fn end(&self, alloc: Global, first: &Heap, ended: &Ended) -> Result<(Ending, Heap), NoMemory>
        ensures ending { IfOk result (λ end. end.0 ≡ ending_at (as_read self.now) ended.now.ending) }
        ensures heap { IfOk result (λ end. end.1 ≡ heap_at (as_read self.now) first.now ended.now.writes ended.now.made) }
    {
        let ending = self.ending(alloc, &ended.ending)?;
        let heap = self.heap(alloc, first, ended)?;
        Ok((ending, heap))
    }

    fn ending(&self, alloc: Global, ending: &SymEnding) -> Result<Ending, NoMemory>
        ensures { IfOk result (λ end. end ≡ ending_at (as_read self.now) ending.now) }
    {
        match ending {
            SymEnding::Returned(None) => Ok(Ending::Returned(None)),
            SymEnding::Returned(Some(out)) => Ok(Ending::Returned(Some(self.value(*out)?))),
            SymEnding::Threw(out) => Ok(Ending::Threw(number_of(self.value(*out)?))),
            SymEnding::IllTyped(place) => Ok(Ending::IllTyped(place.copied(alloc)?)),
        }
    }

    // The objects of the first heap with all that the run wrote, the literals, and what the run made.
    fn heap(&self, alloc: Global, first: &Heap, ended: &Ended) -> Result<Heap, NoMemory>
        ensures { IfOk result (λ heap. heap ≡ heap_at (as_read self.now) first.now ended.now.writes ended.now.made) }
    {
        let mut heap = first.copied(alloc)?;
        self.write(&mut heap, ended.writes.as_slice())?;
        add_literals(alloc, self.literals, &mut heap)?;
        self.make(alloc, &mut heap, ended.made.as_slice())?;
        Ok(heap)
    }

    fn write(&self, heap: &mut Heap, writes: &[Write]) -> Result<(), NoMemory>
        ensures { OnOk result (heap.new ≡ fold (with_write (as_read self.now)) heap.old writes.now) }
    {
        let mut rest = writes;
        while let [write, others @ ..] = rest {
            let value = self.value(write.value)?;
            self.put(heap, write.slot, value);
            rest = others;
        }
        Ok(())
    }

    // Puts the value in the slot or the element of the object of the picture, at its place.
    fn put(&self, heap: &mut Heap, slot: Origin, value: Value)
        ensures { heap.new ≡ with_write_in (as_read self.now) heap.old slot value }
    {
        match slot {
            Origin::Arg(_) => (),
            Origin::Field(object, slot) => {
                put_where_there(heap, self.object(object), slot, value);
            }
            Origin::Element(array, index) => {
                put_where_there(heap, self.object(array), index, value);
            }
        }
    }

    // The objects that the run made, behind the others.
    fn make(&self, alloc: Global, heap: &mut Heap, made: &[Made]) -> Result<(), NoMemory>
        ensures { OnOk result (heap.new.objects ≡ heap.old.objects ++ map (made_object (as_read self.now)) made.now) }
    {
        let mut rest = made;
        while let [object, others @ ..] = rest {
            add(heap, self.made_object(alloc, object)?)?;
            rest = others;
        }
        Ok(())
    }

    fn made_object(&self, alloc: Global, made: &Made) -> Result<Object, NoMemory>
        ensures { IfOk result (λ object. object ≡ made_object (as_read self.now) made.now) }
    {
        let kind = made.kind.copied(alloc)?;
        let values = self.values(alloc, made.values.as_slice())?;
        Ok(Object { kind, values })
    }

    fn values(&self, alloc: Global, outs: &[Out]) -> Result<Row<Value>, NoMemory>
        ensures { IfOk result (λ values. values ≡ map (out_value (as_read self.now)) outs.now) }
    {
        let mut values = Row::new(alloc);
        let mut rest = outs;
        while let [out, others @ ..] = rest {
            values.push(self.value(*out)?)?;
            rest = others;
        }
        Ok(values)
    }

    // The value that a symbolic one has. A number past a `u32` counts as out of memory: no heap has such an object.
    fn value(&self, out: Out) -> Result<Value, NoMemory>
        ensures { IfOk result (λ value. value ≡ out_value (as_read self.now) out) }
    {
        match out {
            Out::Int(operand) => Ok(Value::Int(operand_value(
                self.variables.as_slice(),
                self.terms.as_slice(),
                operand,
            ))),
            Out::Null => Ok(Value::Null),
            Out::Loc(number) => Ok(Value::Ref(place_at(self.places.locs.as_slice(), number))),
            Out::Obj(number) => Ok(Value::Ref(self.object(number))),
            Out::Literal(number) => Ok(Value::Ref(sum(self.inputs, number)?)),
            Out::New(number) => {
                let first = sum(self.inputs, self.literals)?;
                Ok(Value::Ref(sum(first, number)?))
            }
        }
    }

    // The place of the picture's object of that number.
    fn object(&self, number: u32) -> u32
        ensures { result ≡ place_at (as_read self.now).places.objects number }
    {
        place_at(self.places.objects.as_slice(), number)
    }
}

fn place_at(places: &[u32], number: u32) -> u32
    ensures { result ≡ place_at places.now number }
{
    match places.get(number as usize) {
        Some(place) => *place,
        None => 0,
    }
}

// The number of the object that a value is; 0 for one that is none.
fn number_of(value: Value) -> u32
    ensures { result ≡ number_of value }
{
    match value {
        Value::Ref(object) => object,
        Value::Null | Value::Int(_) => 0,
    }
}

fn sum(one: u32, other: u32) -> Result<u32, NoMemory>
    ensures { IfOk result (λ sum. sum ≡ one + other) }
{
    match one.checked_add(other) {
        Some(sum) => Ok(sum),
        None => Err(NoMemory),
    }
}

// Puts the value in its place; a heap that lacks the object or its slot stays as it is.
fn put_where_there(heap: &mut Heap, object: u32, slot: u32, value: Value)
    ensures { heap.new ≡ with_value heap.old object slot value }
{
    let Some(_) = heap.find(object, slot) else {
        return;
    };
    heap.put(object, slot, value);
}

// So many string literals, behind the other objects.
fn add_literals(alloc: Global, count: u32, heap: &mut Heap) -> Result<(), NoMemory>
    ensures { OnOk result (heap.new.objects ≡ heap.old.objects ++ replicate count literal) }
{
    for _ in 0..count {
        add(heap, Object::literal(alloc)?)?;
    }
    Ok(())
}

fn add(heap: &mut Heap, object: Object) -> Result<(), NoMemory>
    ensures { OnOk result (heap.new ≡ with_object heap.old object) }
{
    match heap.add(object) {
        Ok(_) => Ok(()),
        Err(_) => Err(NoMemory),
    }
}
