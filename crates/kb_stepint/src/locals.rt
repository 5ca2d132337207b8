//! Instructions on locals that are ints (JVMS 8 section 6.5).
ghost use Rattle.std.specs.Prelude.{◌≡◌, drop, IfOk};
ghost use Rattle.kb_frames.specs.Lent.{stack_of};
ghost use Rattle.kb_stepint.specs.Effects.{in_local, increases, int_local, loads, stores};
ghost use Rattle.kb_ways.specs.Needs.{HasTerms, IsFor};
ghost use Rattle.kb_ways.specs.Turns.{led, told, led_by};

use crate::NoMemory;
use kb_frames::{Outcome, SymState, SymValue};
use kb_terms::{Op, TermId};
use kb_ways::{
    Turn, an_int, carry_on, constant, has_room, ill_typed, int_term, is_local, make, replaces,
};

/// iload
pub(crate) fn load(turn: &Turn<'_>, state: &mut SymState, local: u16) -> Result<Outcome, NoMemory>
    requires { IsFor turn.now state.old }
    ensures { IfOk result (λ outcome. told state.new outcome ≡ led_by turn.now (loads turn.now.world.now state.old local)) }
{
    match int_local(turn, state, local) {
        Some(term) => replaces(turn, state, 0, &[SymValue::Int(term)]),
        None => ill_typed(turn, state),
    }
}

/// istore
pub(crate) fn store(turn: &Turn<'_>, state: &mut SymState, local: u16) -> Result<Outcome, NoMemory>
    requires { IsFor turn.now state.old }
    ensures { IfOk result (λ outcome. told state.new outcome ≡ led_by turn.now (stores turn.now.world.now state.old local)) }
{
    match an_int(state) {
        Some(term) => set(turn, state, local, term, 1),
        None => ill_typed(turn, state),
    }
}

/// iinc
pub(crate) fn increase(
    turn: &Turn<'_>,
    state: &mut SymState,
    local: u16,
    by: i32,
) -> Result<Outcome, NoMemory>
    requires terms { HasTerms state.old }
    requires stands { IsFor turn.now state.old }
    ensures { IfOk result (λ outcome. told state.new outcome ≡ led_by turn.now (increases turn.now.world.now state.old local by)) }
{
    let Some(term) = int_local(turn, state, local) else {
        return ill_typed(turn, state);
    };
    let by = constant(state, by)?;
    let sum = make(state, Op::Add, term, Some(by))?;
    set(turn, state, local, sum, 0)
}

// The int of a local that lies below the limit.
fn int_local(turn: &Turn<'_>, state: &SymState, local: u16) -> Option<TermId>
    requires { IsFor turn.now state.now }
    ensures { result ≡ int_local turn.now.world.now state.now local }
{
    if !is_local(turn, state, local) {
        return None;
    }
    int_term(state.local(local))
}

// It goes on at the next offset with a term in a local, and with so many values fewer on the stack.
fn set(
    turn: &Turn<'_>,
    state: &mut SymState,
    local: u16,
    term: TermId,
    count: usize,
) -> Result<Outcome, NoMemory>
    requires { IsFor turn.now state.old }
    ensures { IfOk result (λ outcome. told state.new outcome ≡ led turn.now state.old (in_local turn.now.world.now state.old local term (drop count (stack_of state.old.stage)))) }
{
    if !is_local(turn, state, local) {
        return ill_typed(turn, state);
    }
    let kept = state.height().saturating_sub(count);
    if !has_room(turn, state, kept, 0) {
        return ill_typed(turn, state);
    }
    state.store(local, SymValue::Int(term));
    state.pop(count);
    carry_on(turn, state, turn.next);
    Ok(Outcome::Goes)
}
