//! Which methods are explored for now.
ghost use Rattle.std.specs.Prelude.{◌≡◌};
ghost use Rattle.std.specs.List.{list_all};
ghost use Rattle.kb_classes.specs.Slots.{has_slot_type};
ghost use Rattle.kb_drive.specs.HeapMethods.{is_heap_code, is_heap_info, is_heap_instruction, is_heap_method, is_none_or_value, is_left_to_steps, loads_no_int};

use kb_class::{MethodCode, MethodId, MethodInfo};
use kb_code::Instr;
use kb_frames::is_int_instruction;
use kb_names::JType;
use kb_ways::is_built_instruction;
use kb_world::World;

/// Whether the method is one over ints, booleans and references, static or not, with code that has no handlers and uses
/// instructions on ints, the stack, references and fields alone. Then the steps of its states are int steps and steps on
/// references. It takes no memory.
pub fn is_heap_method(world: &World, method: MethodId) -> bool
    ensures { result ≡ is_heap_method world.now method }
{
    match world.find_method(method) {
        Some(info) => is_heap_info(world, method, info),
        None => false,
    }
}

fn is_heap_info(world: &World, method: MethodId, info: &MethodInfo) -> bool
    ensures { result ≡ is_heap_info world.now method info.now }
{
    if !are_values(info.kind.params.as_slice()) {
        return false;
    }
    if !is_none_or_value(&info.kind.result) {
        return false;
    }
    match &info.code {
        Some(code) => is_heap_code(world, method, code),
        None => false,
    }
}

fn are_values(types: &[JType]) -> bool
    ensures { result ≡ list_all has_slot_type types.now }
{
    let mut rest = types;
    while let [first, others @ ..] = rest {
        if !has_slot_type(first) {
            return false;
        }
        rest = others;
    }
    true
}

// Whether the type is one of ints, booleans or references.
fn has_slot_type(of: &JType) -> bool
    ensures { result ≡ has_slot_type of.now }
{
    matches!(
        of,
        JType::Int | JType::Bool | JType::Class(_) | JType::Array(_)
    )
}

fn is_none_or_value(given: &Option<JType>) -> bool
    ensures { result ≡ is_none_or_value given.now }
{
    match given {
        Some(of) => has_slot_type(of),
        None => true,
    }
}

fn is_heap_code(world: &World, method: MethodId, code: &MethodCode) -> bool
    ensures { result ≡ is_heap_code world.now method code.now }
{
    if !code.handlers.as_slice().is_empty() {
        return false;
    }
    let mut rest = code.listing.items.as_slice();
    while let [item, others @ ..] = rest {
        if !is_heap_instruction(world, method, &item.1) {
            return false;
        }
        rest = others;
    }
    true
}

// Whether the instruction is one on ints, the stack, references or fields.
fn is_heap_instruction(world: &World, method: MethodId, instr: &Instr) -> bool
    ensures { result ≡ is_heap_instruction world.now method instr.now }
{
    if is_left_to_steps(instr) {
        return false;
    }
    if loads_no_int(world, method, instr) {
        return false;
    }
    is_built_instruction(world, method, instr)
}

// Calls, new objects, athrow, arrays, casts and instanceof are left to the steps for now.
fn is_left_to_steps(instr: &Instr) -> bool
    ensures { result ≡ is_left_to_steps instr.now }
{
    matches!(
        instr,
        Instr::Virtual(_)
            | Instr::Special(_)
            | Instr::Static(_)
            | Instr::Interface(_)
            | Instr::New(_)
            | Instr::Throw
            | Instr::LoadElem(_)
            | Instr::StoreElem(_)
            | Instr::Length
            | Instr::NewPrim(_)
            | Instr::NewRefs(_)
            | Instr::Cast(_)
            | Instr::InstanceOf(_)
    )
}

// So is ldc of what is no int.
fn loads_no_int(world: &World, method: MethodId, instr: &Instr) -> bool
    ensures { result ≡ loads_no_int world.now method instr.now }
{
    match instr {
        Instr::Ldc(_) => !is_int_instruction(world, method, instr),
        _ => false,
    }
}
