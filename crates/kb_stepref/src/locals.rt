//! Instructions on locals that are references (JVMS 8 section 6.5).
ghost use Rattle.std.specs.Prelude.{◌≡◌, cond, drop, None, IfOk};
ghost use Rattle.kb_frames.specs.Lent.{local_in, stack_of};
ghost use Rattle.kb_ways.specs.Needs.{IsFor};
ghost use Rattle.kb_ways.specs.Turns.{led, told, led_by};
ghost use Rattle.kb_stepref.specs.Effects.{in_local, is_local, loads, stores};
ghost use Rattle.kb_ways.specs.Operands.{reference};

use crate::NoMemory;
use kb_frames::{Outcome, SymState, SymValue};
use kb_ways::{Turn, a_reference, carry_on, has_room, ill_typed, is_local, reference, replaces};

/// aload
pub(crate) fn load(turn: &Turn<'_>, state: &mut SymState, local: u16) -> Result<Outcome, NoMemory>
    requires { IsFor turn.now state.old }
    ensures { IfOk result (λ outcome. told state.new outcome ≡ led_by turn.now (loads turn.now.world.now state.old local)) }
{
    match local_at(turn, state, local) {
        Some(value) => replaces(turn, state, 0, &[value]),
        None => ill_typed(turn, state),
    }
}

/// astore
pub(crate) fn store(turn: &Turn<'_>, state: &mut SymState, local: u16) -> Result<Outcome, NoMemory>
    requires { IsFor turn.now state.old }
    ensures { IfOk result (λ outcome. told state.new outcome ≡ led_by turn.now (stores turn.now.world.now state.old local)) }
{
    match a_reference(state) {
        Some(value) => set(turn, state, local, value),
        None => ill_typed(turn, state),
    }
}

// The reference of a local that lies below the limit.
fn local_at(turn: &Turn<'_>, state: &SymState, local: u16) -> Option<SymValue>
    requires { IsFor turn.now state.now }
    ensures { result ≡ reference (cond (is_local turn.now.world.now state.now local) (local_in state.now.stage local) None) }
{
    if !is_local(turn, state, local) {
        return None;
    }
    reference(state.local(local))
}

// It goes on at the next offset with a value in a local, and with one fewer on the stack.
fn set(
    turn: &Turn<'_>,
    state: &mut SymState,
    local: u16,
    value: SymValue,
) -> Result<Outcome, NoMemory>
    requires { IsFor turn.now state.old }
    ensures { IfOk result (λ outcome. told state.new outcome ≡ led turn.now state.old (in_local turn.now.world.now state.old local value (drop 1 (stack_of state.old.stage)))) }
{
    if !is_local(turn, state, local) {
        return ill_typed(turn, state);
    }
    let kept = state.height().saturating_sub(1);
    if !has_room(turn, state, kept, 0) {
        return ill_typed(turn, state);
    }
    state.store(local, value);
    state.pop(1);
    carry_on(turn, state, turn.next);
    Ok(Outcome::Goes)
}
