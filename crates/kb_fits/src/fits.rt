//! Which inputs are type-correct for a method.

ghost use Rattle.std.specs.Prelude.{◌↔◌, ◌<◌, ◌^◌, IsTrue, length, map};
ghost use Rattle.std.specs.List.{AllByRecursion};
ghost use Rattle.kb_names.specs.declared.types.JType.TheVariants as types;
ghost use Rattle.kb_class.specs.Members.{is_static};
ghost use Rattle.kb_heap.specs.Heap.{object_at};
ghost use Rattle.kb_semantics.specs.Inputs.{HasReceiver, HasValuesOf, IsInputObject, IsTypeCorrect, argument_types};
ghost use Rattle.kb_semantics.specs.Values.{AreValuesOf, IsObjectOf, IsValueOf};

use kb_class::{MethodId, MethodInfo, is_static};
use kb_heap::{Heap, Input, Object, Value};
use kb_lookups::Typed;
use kb_names::{ExactType, JType};
use kb_semantics::World;

/// Whether the input is type-correct for the method: as many arguments as parameters, each a value of its parameter's type, before
/// them a receiver where the method is not static, and each object one of a type of the world's universe with values of the types
/// of its slots or elements.
///
/// Source: JVMS 8 sections 2.3, 2.4, 2.7 and 4.3.3.
pub fn fits_types(world: &World, target: MethodId, input: &Input) -> bool
    ensures { IsTrue result ↔ IsTypeCorrect world.now target input.now }
{
    let Some(method) = world.find_method(target) else {
        return false;
    };
    let heap = &input.heap;
    if !are_input_objects(world, heap, heap.objects.as_slice()) {
        return false;
    }
    let args = input.args.as_slice();
    if !has_receiver(method, args) {
        return false;
    }
    are_arguments(world, heap, method, args)
}

fn has_receiver(method: &MethodInfo, args: &[Value]) -> bool
    ensures { IsTrue result ↔ HasReceiver (is_static method.now.access) args.now }
{
    if is_static(method.access) {
        return true;
    }
    match args {
        [Value::Ref(_), ..] => true,
        _ => false,
    }
}

// Whether they are values of the types of the method's arguments.
fn are_arguments(world: &World, heap: &Heap, method: &MethodInfo, args: &[Value]) -> bool
    ensures { IsTrue result ↔ AreValuesOf world.now heap.now (argument_types world.now method.now) args.now }
{
    let params = method.kind.params.as_slice();
    if is_static(method.access) {
        return are_values_of(world, heap, params, args);
    }
    let [receiver, others @ ..] = args else {
        return false;
    };
    if !is_of_class(world, heap, world.find_name(method.class), *receiver) {
        return false;
    }
    are_values_of(world, heap, params, others)
}

fn are_input_objects(world: &World, heap: &Heap, objects: &[Object]) -> bool
    ensures { IsTrue result ↔ AllByRecursion (IsInputObject world.now heap.now) objects.now }
{
    let mut rest = objects;
    while let [object, others @ ..] = rest {
        if !is_input_object(world, heap, object) {
            return false;
        }
        rest = others;
    }
    true
}

fn is_input_object(world: &World, heap: &Heap, object: &Object) -> bool
    ensures { IsTrue result ↔ IsInputObject world.now heap.now object.now }
{
    if !world.is_in_universe(&object.kind) {
        return false;
    }
    has_values_of(world, heap, &object.kind, object.values.as_slice())
}

fn has_values_of(world: &World, heap: &Heap, of: &ExactType, values: &[Value]) -> bool
    ensures { IsTrue result ↔ HasValuesOf world.now heap.now of.now values.now }
{
    match of {
        ExactType::Class(name) => are_values_of(world, heap, world.slots_named(name), values),
        ExactType::Array(component) => are_elements(world, heap, component, values),
    }
}

// So many values as an int can count, each of the component.
fn are_elements(world: &World, heap: &Heap, component: &JType, values: &[Value]) -> bool
    ensures { IsTrue result ↔ ((length values.now < 2 ^ 31) × AllByRecursion (IsValueOf world.now heap.now component.now) values.now) }
{
    if values.len() > 0x7fff_ffff {
        return false;
    }
    are_all_of(world, heap, component, values)
}

fn are_all_of(world: &World, heap: &Heap, component: &JType, values: &[Value]) -> bool
    ensures { IsTrue result ↔ AllByRecursion (IsValueOf world.now heap.now component.now) values.now }
{
    let mut rest = values;
    while let [value, others @ ..] = rest {
        if !is_value_of(world, heap, component, *value) {
            return false;
        }
        rest = others;
    }
    true
}

// Whether there are as many values as places, each of the type of its place.
fn are_values_of<P: Typed>(world: &World, heap: &Heap, places: &[P], values: &[Value]) -> bool
    ensures { IsTrue result ↔ AreValuesOf world.now heap.now (map P.kind places.now) values.now }
{
    let mut left = places;
    let mut rest = values;
    while let [place, others @ ..] = left {
        let [value, more @ ..] = rest else {
            return false;
        };
        if !is_value_of(world, heap, place.kind(), *value) {
            return false;
        }
        left = others;
        rest = more;
    }
    rest.is_empty()
}

fn is_value_of(world: &World, heap: &Heap, of: &JType, value: Value) -> bool
    ensures { IsTrue result ↔ IsValueOf world.now heap.now of.now value }
{
    match (of, value) {
        (JType::Int, Value::Int(_)) => true,
        (JType::Bool, Value::Int(number)) => number == 0 || number == 1,
        (JType::Class(_) | JType::Array(_), Value::Null) => true,
        (JType::Class(_) | JType::Array(_), Value::Ref(object)) => {
            is_object_of(world, heap, of, object)
        }
        _ => false,
    }
}

fn is_object_of(world: &World, heap: &Heap, of: &JType, object: u32) -> bool
    ensures { IsTrue result ↔ IsObjectOf world.now of.now (object_at heap.now object) }
{
    match heap.objects.as_slice().get(object as usize) {
        Some(object) => world.subtype(&object.kind, of),
        None => false,
    }
}

// Whether it is null, or an object of the class of that name.
fn is_of_class(world: &World, heap: &Heap, name: &[u8], value: Value) -> bool
    ensures { IsTrue result ↔ IsValueOf world.now heap.now (types.Class name.now) value }
{
    match value {
        Value::Int(_) => false,
        Value::Null => true,
        Value::Ref(object) => is_object_of_class(world, heap, name, object),
    }
}

fn is_object_of_class(world: &World, heap: &Heap, name: &[u8], object: u32) -> bool
    ensures { IsTrue result ↔ IsObjectOf world.now (types.Class name.now) (object_at heap.now object) }
{
    match heap.objects.as_slice().get(object as usize) {
        Some(object) => world.is_of_class(&object.kind, name),
        None => false,
    }
}
