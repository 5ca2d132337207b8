//! Where the objects and locations of a picture lie in an input.
ghost use Rattle.std.specs.Prelude.{◌≡◌, [], IfOk};
ghost use Rattle.kb_picture.specs.Places.{value_in, slot_value, object_named, place_of, objects_placed, locs_placed, places_of};

use crate::NoMemory;
use crate::path::Path;
use crate::picture::{Origin, PicLoc, PicObject, PlaceLists};
use kb_heap::{Heap, Input, Value};
use kb_rows::Row;
use std::alloc::Global;

/// The places of the path's picture in an input, whether or not the input is type-correct: for each object and each location
/// the object of the input to which its origin leads. None where some origin leads to no object of the input.
#[tactic(auto, unfolding(crate::specs::Places::places_of))]
pub fn places(alloc: Global, path: &Path, input: &Input) -> Result<Option<PlaceLists>, NoMemory>
    ensures { IfOk result (λ found. found ≡ places_of path.now.picture input.now) }
{
    let picture = &path.picture;
    let Some(objects) = objects_placed(alloc, input, picture.objects.as_slice())? else {
        return Ok(None);
    };
    let Some(locs) = locs_placed(alloc, input, objects.as_slice(), picture.locs.as_slice())? else {
        return Ok(None);
    };
    Ok(Some(PlaceLists { objects, locs }))
}

// The places of the objects, each found from those before it.
fn objects_placed(
    alloc: Global,
    input: &Input,
    objects: &[PicObject],
) -> Result<Option<Row<u32>>, NoMemory>
    ensures { IfOk result (λ placed. placed ≡ objects_placed input.now [] objects.now) }
{
    let mut places = Row::new(alloc);
    let mut rest = objects;
    while let [object, others @ ..] = rest {
        let Some(place) = place_of(input, places.as_slice(), object.origin) else {
            return Ok(None);
        };
        places.push(place)?;
        rest = others;
    }
    Ok(Some(places))
}

// The places of the locations, where `objects` are those of the objects.
fn locs_placed(
    alloc: Global,
    input: &Input,
    objects: &[u32],
    locs: &[PicLoc],
) -> Result<Option<Row<u32>>, NoMemory>
    ensures { IfOk result (λ placed. placed ≡ locs_placed input.now objects.now locs.now) }
{
    let mut places = Row::new(alloc);
    let mut rest = locs;
    while let [loc, others @ ..] = rest {
        let Some(place) = place_of(input, objects, loc.origin) else {
            return Ok(None);
        };
        places.push(place)?;
        rest = others;
    }
    Ok(Some(places))
}

// The object of the input to which an origin leads, where the objects of the picture lie at these places.
#[tactic(auto, unfolding(crate::specs::Places::place_of))]
fn place_of(input: &Input, places: &[u32], origin: Origin) -> Option<u32>
    ensures { result ≡ place_of input.now places.now origin }
{
    object_named(&input.heap, slot_value(input, places, origin))
}

/// The object of the heap that a value names.
pub(crate) fn object_named(heap: &Heap, value: Option<Value>) -> Option<u32>
    ensures { result ≡ object_named heap.now value }
{
    let Some(Value::Ref(object)) = value else {
        return None;
    };
    if (object as usize) < heap.objects.as_slice().len() {
        Some(object)
    } else {
        None
    }
}

/// What a slot of the input's first heap holds, where the objects of the picture lie at these places.
pub(crate) fn slot_value(input: &Input, places: &[u32], slot: Origin) -> Option<Value>
    ensures { result ≡ slot_value input.now places.now slot }
{
    match slot {
        Origin::Arg(number) => input.args.as_slice().get(number as usize).copied(),
        Origin::Field(object, slot) => value_in(&input.heap, places, object, slot),
        Origin::Element(array, index) => value_in(&input.heap, places, array, index),
    }
}

// The value of that slot or element of the place of an object of the picture.
fn value_in(heap: &Heap, places: &[u32], object: u32, slot: u32) -> Option<Value>
    ensures { result ≡ value_in heap.now places.now object slot }
{
    let place = places.get(object as usize)?;
    heap.find(*place, slot)
}
