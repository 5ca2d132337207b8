//! Whether an input is an instance of a path.
ghost use Rattle.std.specs.Prelude.{◌≡◌, ◌↔◌, Some, IfOk, IsTrue, slice_get};
ghost use Rattle.kb_picture.specs.Places.{places_of};
ghost use Rattle.kb_picture.specs.Shapes.{HasLength, IsSuch, HoldsSeen, HoldEach, Stands, HasShape};
ghost use Rattle.kb_picture.specs.Instances.{IsInstance};
ghost use Rattle.kb_picture.specs.Places.{object_named};
ghost use Rattle.kb_picture.specs.Tables.{Tells, EachPair, StandsAt, is_int, is_null, is_place, is_further};

use crate::NoMemory;
use crate::marks::{is_marked, marks_of};
use crate::path::Path;
use crate::picture::{Length, Origin, PicLoc, PicObject, Picture, PlaceLists, Seen, Standing};
use crate::placing::{object_named, slot_value};
use crate::values::{are_met, term_values, variable_values};
use kb_heap::{Heap, Input, Value};
use kb_semantics::World;
use std::alloc::Global;

/// Whether the input is an instance of the path, where `places` are those that [`crate::places`] gives for the two. Each term
/// is computed once. What the path names is known to be in its world, which is not looked at.
pub fn is_instance(
    alloc: Global,
    _world: &World,
    path: &Path,
    input: &Input,
    places: &PlaceLists,
) -> Result<bool, NoMemory>
    requires { places_of path.now.picture input.now ≡ Some places.now }
    ensures { IfOk result (λ answer. IsTrue answer ↔ IsInstance path.now input.now) }
{
    if !has_shape(alloc, &path.picture, input, places)? {
        return Ok(false);
    }
    let variables = variable_values(alloc, &path.picture, input, places.objects.as_slice())?;
    let terms = term_values(alloc, variables.as_slice(), path.terms.as_slice())?;
    Ok(are_met(terms.as_slice(), path.when.as_slice()))
}

// Whether the input's first heap is as the picture says.
fn has_shape(
    alloc: Global,
    picture: &Picture,
    input: &Input,
    places: &PlaceLists,
) -> Result<bool, NoMemory>
    requires { places_of picture.now input.now ≡ Some places.now }
    ensures { IfOk result (λ answer. IsTrue answer ↔ HasShape picture.now input.now) }
{
    let objects = places.objects.as_slice();
    let Some(table) = marks_of(alloc, input.heap.objects.as_slice().len(), objects)? else {
        return Ok(false);
    };
    if !hold_each(input, objects, table.as_slice(), picture.seen.as_slice()) {
        return Ok(false);
    }
    if !are_such(&input.heap, picture.objects.as_slice(), objects) {
        return Ok(false);
    }
    Ok(each_stands(
        objects,
        table.as_slice(),
        picture.locs.as_slice(),
        places.locs.as_slice(),
    ))
}

// Whether each slot that is seen holds what is seen.
fn hold_each(input: &Input, places: &[u32], table: &[bool], seen: &[(Origin, Seen)]) -> bool
    requires { Tells table.now places.now }
    ensures { IsTrue result ↔ HoldEach input.now places.now seen.now }
{
    let mut rest = seen;
    while let [(slot, seen), others @ ..] = rest {
        let value = slot_value(input, places, *slot);
        if !holds(&input.heap, places, table, value, *seen) {
            return false;
        }
        rest = others;
    }
    true
}

// Whether the value of a slot is what is seen.
fn holds(heap: &Heap, places: &[u32], table: &[bool], value: Option<Value>, seen: Seen) -> bool
    requires { Tells table.now places.now }
    ensures { IsTrue result ↔ HoldsSeen heap.now places.now value seen }
{
    match seen {
        Seen::Int(_) => is_int(value),
        Seen::Null => is_null(value),
        Seen::Loc(_) => object_named(heap, value).is_some(),
        Seen::Obj(number) => is_place(places, number, value),
        Seen::Beyond => is_further(heap, table, value),
    }
}

fn is_int(value: Option<Value>) -> bool
    ensures { result ≡ is_int value }
{
    match value {
        Some(Value::Int(_)) => true,
        _ => false,
    }
}

fn is_null(value: Option<Value>) -> bool
    ensures { result ≡ is_null value }
{
    match value {
        Some(Value::Null) => true,
        _ => false,
    }
}

// Whether the value is the place of the picture's object of that number.
fn is_place(places: &[u32], number: u32, value: Option<Value>) -> bool
    ensures { result ≡ is_place (slice_get places.now number) value }
{
    match (places.get(number as usize), value) {
        (Some(place), Some(Value::Ref(object))) => *place == object,
        _ => false,
    }
}

// Whether the value is an object of the heap that is not marked.
fn is_further(heap: &Heap, table: &[bool], value: Option<Value>) -> bool
    ensures { result ≡ is_further table.now (object_named heap.now value) }
{
    match object_named(heap, value) {
        Some(object) => !is_marked(table, object),
        None => false,
    }
}

// Whether each place has the exact type and the length of its object of the picture.
fn are_such(heap: &Heap, objects: &[PicObject], places: &[u32]) -> bool
    ensures { IsTrue result ↔ EachPair (IsSuch heap.now) objects.now places.now }
{
    let mut left = objects;
    let mut rest = places;
    while let [object, others @ ..] = left {
        let [place, more @ ..] = rest else {
            return true;
        };
        if !is_such(heap, object, *place) {
            return false;
        }
        left = others;
        rest = more;
    }
    true
}

fn is_such(heap: &Heap, expected: &PicObject, place: u32) -> bool
    ensures { IsTrue result ↔ IsSuch heap.now expected.now place }
{
    let Some(object) = heap.objects.as_slice().get(place as usize) else {
        return false;
    };
    if !object.kind.is_same(&expected.kind) {
        return false;
    }
    has_length(expected.length, object.values.as_slice())
}

fn has_length(length: Length, values: &[Value]) -> bool
    ensures { IsTrue result ↔ HasLength length values.now }
{
    match length {
        Length::Plain => true,
        Length::Is(count) => values.len() == count as usize,
        Length::Above(count) => values.len() > count as usize,
    }
}

// Whether each location is what it stands for.
fn each_stands(objects: &[u32], table: &[bool], locs: &[PicLoc], places: &[u32]) -> bool
    requires { Tells table.now objects.now }
    ensures { IsTrue result ↔ EachPair (StandsAt objects.now) locs.now places.now }
{
    let mut left = locs;
    let mut rest = places;
    while let [loc, others @ ..] = left {
        let [place, more @ ..] = rest else {
            return true;
        };
        if !stands(objects, table, loc.standing, *place) {
            return false;
        }
        left = others;
        rest = more;
    }
    true
}

fn stands(objects: &[u32], table: &[bool], standing: Standing, place: u32) -> bool
    requires { Tells table.now objects.now }
    ensures { IsTrue result ↔ Stands objects.now standing place }
{
    match standing {
        Standing::Open => true,
        Standing::Obj(number) => is_place(objects, number, Some(Value::Ref(place))),
        Standing::Beyond => !is_marked(table, place),
    }
}
