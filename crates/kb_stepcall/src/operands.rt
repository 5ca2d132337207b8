//! What a call takes from the operand stack of a state. Nothing is taken off it here.
ghost use Rattle.std.specs.Prelude.{◌≡◌, ◌∷◌, length, option_map, IfSome};
ghost use Rattle.kb_names.specs.declared.types.JType.TheVariants as types;
ghost use Rattle.kb_class.specs.Platform.{object_name};
ghost use Rattle.kb_frames.specs.Lent.{stack_of};
ghost use Rattle.kb_stepcall.specs.Operands.{are_of_kinds, kind_of, operand_types, operands_for, operands_of, reference_at, topmost};

use crate::calls::Call;
use kb_frames::{SymState, SymValue};
use kb_names::{JType, MethodType};
use kb_ways::{is_of_kind, reference};

/// How many operands a call takes: None where one is missing, or has another kind.
pub(crate) fn operands(state: &SymState, call: Call, kind: &MethodType) -> Option<usize>
    ensures them { option_map (λ count. topmost count (stack_of state.now.stage)) result ≡ operands_of (kind_of call) kind.now (stack_of state.now.stage) }
    ensures many { IfSome result (λ count. count ≡ length (operand_types (kind_of call) kind.now)) }
{
    let params = kind.params.as_slice();
    match call {
        Call::Static => arguments(state, params),
        Call::BySelection | Call::Special => receiver_and_arguments(state, params),
    }
}

// How many arguments there are for parameters of these types.
fn arguments(state: &SymState, params: &[JType]) -> Option<usize>
    ensures them { option_map (λ count. topmost count (stack_of state.now.stage)) result ≡ operands_for params.now (stack_of state.now.stage) }
    ensures many { IfSome result (λ count. count ≡ length params.now) }
{
    let count = params.len();
    if !are_of_kinds(params, state.topmost(count)) {
        return None;
    }
    Some(count)
}

// How many there are with a receiver before them.
fn receiver_and_arguments(state: &SymState, params: &[JType]) -> Option<usize>
    ensures them { option_map (λ count. topmost count (stack_of state.now.stage)) result ≡ operands_for (types.Class object_name ∷ params.now) (stack_of state.now.stage) }
    ensures many { IfSome result (λ count. count ≡ length (types.Class object_name ∷ params.now)) }
{
    let count = params.len() + 1;
    if !are_with_receiver(params, state.topmost(count)) {
        return None;
    }
    Some(count)
}

// Whether each parameter takes its value of these.
fn are_of_kinds(params: &[JType], values: &[SymValue]) -> bool
    ensures { result ≡ are_of_kinds params.now values.now }
{
    let mut of = params;
    let mut rest = values;
    while let [first, others @ ..] = of {
        let [value, more @ ..] = rest else {
            return false;
        };
        if !is_of_kind(first, *value) {
            return false;
        }
        of = others;
        rest = more;
    }
    rest.is_empty()
}

// Whether the first value is a reference, and each parameter takes its value of those behind it.
fn are_with_receiver(params: &[JType], values: &[SymValue]) -> bool
    ensures { result ≡ are_of_kinds (types.Class object_name ∷ params.now) values.now }
{
    match values {
        [] | [SymValue::Int(_), ..] => false,
        [_, rest @ ..] => are_of_kinds(params, rest),
    }
}

/// The reference at a place among so many operands: null where there is none.
pub(crate) fn operand(state: &SymState, count: usize, place: usize) -> SymValue
    ensures { result ≡ reference_at (topmost count (stack_of state.now.stage)) place }
{
    match reference(state.topmost(count).get(place).copied()) {
        Some(value) => value,
        None => SymValue::Null,
    }
}
