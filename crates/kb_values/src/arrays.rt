//! Arrays and what instructions find in them (JVMS 8 section 6.5).

ghost use Rattle.std.specs.Prelude.{◌≡◌, length, option_map, true, IfOk};
ghost use Rattle.kb_semantics.specs.Instructions.{Elements as PlainElements, array_at, new_array, takes_object};
ghost use Rattle.kb_semantics.specs.Values.{takes_component};
ghost use Rattle.kb_values.specs.Arrays.{loaded_at, plain_elements, stored_at};

use crate::NoMemory;
use crate::kinds::kept;
use kb_code::Elem;
use kb_heap::{Heap, Object, Row, Value};
use kb_lookups::{default_of, place_in_array, takes_component};
use kb_names::{ExactType, JType};
use kb_semantics::World;
use std::alloc::Global;

/// The component and the elements of an array.
#[derive(Clone, Copy)]
pub(crate) struct Elements<'h> {
    pub(crate) component: &'h JType,
    pub(crate) values: &'h [Value],
}

/// What an array has at an index.
#[derive(Clone, Copy)]
pub enum Loaded {
    Value(Value),
    /// The index is not in the array.
    Outside,
    IllTyped,
}

/// What becomes of a value that is to be stored in an array.
#[derive(Clone, Copy)]
pub enum Stored {
    /// It is kept so at that place.
    Kept(u32, Value),
    /// The index is not in the array.
    Outside,
    /// It is an object that the array may not have.
    Refused,
    IllTyped,
}

/// An array of default values.
pub fn new_array(alloc: Global, of: JType, count: u32) -> Result<Object, NoMemory>
    ensures { IfOk result (λ object. object ≡ new_array of count) }
{
    let values = vec![in alloc; default_of(&of); count as usize]?;
    Ok(Object {
        kind: ExactType::Array(of),
        values: Row::from_vec(values),
    })
}

/// The length of an array.
pub fn len_at(heap: &Heap, array: u32) -> Option<usize>
    ensures { result ≡ option_map (λ (found : PlainElements). length found.values) (array_at heap.now array (λ component. true)) }
{
    let object = heap.objects.as_slice().get(array as usize)?;
    match &object.kind {
        ExactType::Array(_) => Some(object.values.as_slice().len()),
        ExactType::Class(_) => None,
    }
}

/// What the array has at an index.
pub fn loaded_at(heap: &Heap, array: u32, elem: Elem, index: i32) -> Loaded
    ensures { result ≡ loaded_at heap.now array (takes_component elem) index }
{
    let Some(found) = array_at(heap, array, elem) else {
        return Loaded::IllTyped;
    };
    let Some(place) = place_in_array(index, found.values.len()) else {
        return Loaded::Outside;
    };
    match found.values.get(place as usize) {
        Some(value) => Loaded::Value(*value),
        None => Loaded::IllTyped,
    }
}

/// What becomes of a value that is to be stored in the array at an index.
pub fn stored_at(
    world: &World,
    heap: &Heap,
    array: u32,
    elem: Elem,
    index: i32,
    value: Value,
) -> Stored
    ensures { result ≡ stored_at world.now heap.now array (takes_component elem) index value }
{
    let Some(found) = array_at(heap, array, elem) else {
        return Stored::IllTyped;
    };
    let Some(place) = place_in_array(index, found.values.len()) else {
        return Stored::Outside;
    };
    if !takes_object(world, heap, found.component, value) {
        return Stored::Refused;
    }
    match kept(found.component, value) {
        Some(value) => Stored::Kept(place, value),
        None => Stored::IllTyped,
    }
}

// The component and the elements of an array that the instruction takes.
fn array_at(heap: &Heap, array: u32, elem: Elem) -> Option<Elements<'_>>
    ensures { option_map plain_elements result ≡ array_at heap.now array (takes_component elem) }
{
    let object = heap.objects.as_slice().get(array as usize)?;
    let ExactType::Array(component) = &object.kind else {
        return None;
    };
    if !takes_component(elem, component) {
        return None;
    }
    Some(Elements {
        component,
        values: object.values.as_slice(),
    })
}

// Whether the component takes the value: null, or an object that fits it.
fn takes_object(world: &World, heap: &Heap, component: &JType, value: Value) -> bool
    ensures { result ≡ takes_object world.now heap.now component.now value }
{
    let Value::Ref(object) = value else {
        return true;
    };
    match heap.objects.as_slice().get(object as usize) {
        Some(of) => world.subtype(&of.kind, component),
        None => false,
    }
}
