//! Instructions that rearrange the operand stack (JVMS 8 section 6.5). Values are named from the top down, and pushed from the
//! bottom up.
ghost use Rattle.std.specs.Prelude.{◌≡◌, ◌∷◌, [], IfOk};
ghost use Rattle.kb_stepint.specs.Effects.{rearranges};
ghost use Rattle.kb_ways.specs.Needs.{IsFor};
ghost use Rattle.kb_ways.specs.Turns.{told, led_by};

use crate::NoMemory;
use kb_frames::{Outcome, SymState};
use kb_ways::{Turn, ill_typed, replaces};

/// pop
pub(crate) fn pop(turn: &Turn<'_>, state: &mut SymState) -> Result<Outcome, NoMemory>
    requires { IsFor turn.now state.old }
    ensures { IfOk result (λ outcome. told state.new outcome ≡ led_by turn.now (rearranges state.old 1 [])) }
{
    match state.value_at(0) {
        Some(_) => replaces(turn, state, 1, &[]),
        None => ill_typed(turn, state),
    }
}

/// pop2
pub(crate) fn pop2(turn: &Turn<'_>, state: &mut SymState) -> Result<Outcome, NoMemory>
    requires { IsFor turn.now state.old }
    ensures { IfOk result (λ outcome. told state.new outcome ≡ led_by turn.now (rearranges state.old 2 [])) }
{
    match state.value_at(1) {
        Some(_) => replaces(turn, state, 2, &[]),
        None => ill_typed(turn, state),
    }
}

/// dup
pub(crate) fn dup(turn: &Turn<'_>, state: &mut SymState) -> Result<Outcome, NoMemory>
    requires { IsFor turn.now state.old }
    ensures { IfOk result (λ outcome. told state.new outcome ≡ led_by turn.now (rearranges state.old 1 (0 ∷ 0 ∷ []))) }
{
    match state.value_at(0) {
        Some(first) => replaces(turn, state, 1, &[first, first]),
        None => ill_typed(turn, state),
    }
}

/// dup_x1
pub(crate) fn dup_x1(turn: &Turn<'_>, state: &mut SymState) -> Result<Outcome, NoMemory>
    requires { IsFor turn.now state.old }
    ensures { IfOk result (λ outcome. told state.new outcome ≡ led_by turn.now (rearranges state.old 2 (0 ∷ 1 ∷ 0 ∷ []))) }
{
    match (state.value_at(0), state.value_at(1)) {
        (Some(first), Some(second)) => replaces(turn, state, 2, &[first, second, first]),
        _ => ill_typed(turn, state),
    }
}

/// dup_x2
pub(crate) fn dup_x2(turn: &Turn<'_>, state: &mut SymState) -> Result<Outcome, NoMemory>
    requires { IsFor turn.now state.old }
    ensures { IfOk result (λ outcome. told state.new outcome ≡ led_by turn.now (rearranges state.old 3 (0 ∷ 1 ∷ 2 ∷ 0 ∷ []))) }
{
    match (state.value_at(0), state.value_at(1), state.value_at(2)) {
        (Some(first), Some(second), Some(third)) => {
            replaces(turn, state, 3, &[first, third, second, first])
        }
        _ => ill_typed(turn, state),
    }
}

/// dup2
pub(crate) fn dup2(turn: &Turn<'_>, state: &mut SymState) -> Result<Outcome, NoMemory>
    requires { IsFor turn.now state.old }
    ensures { IfOk result (λ outcome. told state.new outcome ≡ led_by turn.now (rearranges state.old 2 (0 ∷ 1 ∷ 0 ∷ 1 ∷ []))) }
{
    match (state.value_at(0), state.value_at(1)) {
        (Some(first), Some(second)) => { replaces(turn, state, 2, &[second, first, second, first]) }
        _ => ill_typed(turn, state),
    }
}

/// dup2_x1
pub(crate) fn dup2_x1(turn: &Turn<'_>, state: &mut SymState) -> Result<Outcome, NoMemory>
    requires { IsFor turn.now state.old }
    ensures { IfOk result (λ outcome. told state.new outcome ≡ led_by turn.now (rearranges state.old 3 (0 ∷ 1 ∷ 2 ∷ 0 ∷ 1 ∷ []))) }
{
    match (state.value_at(0), state.value_at(1), state.value_at(2)) {
        (Some(first), Some(second), Some(third)) => {
            replaces(turn, state, 3, &[second, first, third, second, first])
        }
        _ => ill_typed(turn, state),
    }
}

/// dup2_x2
pub(crate) fn dup2_x2(turn: &Turn<'_>, state: &mut SymState) -> Result<Outcome, NoMemory>
    requires { IsFor turn.now state.old }
    ensures { IfOk result (λ outcome. told state.new outcome ≡ led_by turn.now (rearranges state.old 4 (0 ∷ 1 ∷ 2 ∷ 3 ∷ 0 ∷ 1 ∷ []))) }
{
    let two = (state.value_at(0), state.value_at(1));
    match (two, state.value_at(2), state.value_at(3)) {
        ((Some(first), Some(second)), Some(third), Some(fourth)) => {
            replaces(
                turn,
                state,
                4,
                &[second, first, fourth, third, second, first],
            )
        }
        _ => ill_typed(turn, state),
    }
}

/// swap
pub(crate) fn swap(turn: &Turn<'_>, state: &mut SymState) -> Result<Outcome, NoMemory>
    requires { IsFor turn.now state.old }
    ensures { IfOk result (λ outcome. told state.new outcome ≡ led_by turn.now (rearranges state.old 2 (1 ∷ 0 ∷ []))) }
{
    match (state.value_at(0), state.value_at(1)) {
        (Some(first), Some(second)) => replaces(turn, state, 2, &[first, second]),
        _ => ill_typed(turn, state),
    }
}
