//! Which methods run by int steps alone.
ghost use Rattle.std.specs.Prelude.{◌≡◌, true};
ghost use Rattle.std.specs.List.{list_all};
ghost use Rattle.kb_picture.specs.declared.choice.Init.{Init};
ghost use Rattle.kb_frames.specs.State.{start_state};
ghost use Rattle.kb_ways.specs.Reached.{HasNoHandlers, IsReached};
ghost use Rattle.kb_picture.specs.WellTyped.{is_int_type};
ghost use Rattle.kb_stepint.specs.IntMethods.{is_int_code, is_int_info, is_int_method, is_none_or_int};

use kb_class::{MethodCode, MethodId, MethodInfo, is_static};
use kb_frames::is_int_instruction;
use kb_names::JType;
use kb_semantics::World;

/// Whether the method is one over ints: static, its parameters and its result ints and booleans, with code that has no handlers
/// and uses instructions on ints and the stack alone. Then the steps of its states are steps of ints. It takes no memory.
pub fn is_int_method(world: &World, method: MethodId) -> bool
    ensures is { result ≡ is_int_method world.now method }
    ensures begins { result ≡ true → (init : Init) → IsReached world.now (start_state init method) }
    ensures unhandled { result ≡ true → HasNoHandlers world.now method }
{
    match world.find_method(method) {
        Some(_) => is_int_info(world, method, world.method_of(method)),
        None => false,
    }
}

fn is_int_info(world: &World, method: MethodId, info: &MethodInfo) -> bool
    ensures { result ≡ is_int_info world.now method info.now }
{
    if !is_static(info.access) {
        return false;
    }
    if !are_int_types(info.kind.params.as_slice()) {
        return false;
    }
    if !is_none_or_int(&info.kind.result) {
        return false;
    }
    match &info.code {
        Some(code) => is_int_code(world, method, code),
        None => false,
    }
}

fn are_int_types(types: &[JType]) -> bool
    ensures { result ≡ list_all is_int_type types.now }
{
    let mut rest = types;
    while let [first, others @ ..] = rest {
        if !is_int_type(first) {
            return false;
        }
        rest = others;
    }
    true
}

fn is_int_type(of: &JType) -> bool
    ensures { result ≡ is_int_type of.now }
{
    matches!(of, JType::Int | JType::Bool)
}

fn is_none_or_int(given: &Option<JType>) -> bool
    ensures { result ≡ is_none_or_int given.now }
{
    match given {
        Some(of) => is_int_type(of),
        None => true,
    }
}

fn is_int_code(world: &World, method: MethodId, code: &MethodCode) -> bool
    ensures { result ≡ is_int_code world.now method code.now }
{
    if !code.handlers.as_slice().is_empty() {
        return false;
    }
    let mut rest = code.listing.items.as_slice();
    while let [item, others @ ..] = rest {
        if !is_int_instruction(world, method, &item.1) {
            return false;
        }
        rest = others;
    }
    true
}
