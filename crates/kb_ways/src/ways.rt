//! The ways in which a step goes on or ends.
ghost use Rattle.std.specs.Prelude.{◌≡◌, ◌+◌, ◌++◌, ◌<◌, drop, reverse, IfOk, OnOk};
ghost use Rattle.kb_semantics.specs.Config.{has_room};
ghost use Rattle.kb_frames.specs.Lent.{carried_on, locals_of, on_frame, stack_of};
ghost use Rattle.kb_frames.specs.Next.{method_now};
ghost use Rattle.kb_frames.specs.declared.frame.SymFrame.{SymFrame};
ghost use Rattle.kb_ways.specs.Needs.{IsFor};
ghost use Rattle.kb_ways.specs.Plans.{takes_none};
ghost use Rattle.kb_ways.specs.Turns.{led, told};
ghost use Rattle.kb_ways.specs.Ways.{Goes, Jumps, Fails, ill_typed};

use crate::NoMemory;
use crate::place::place_in_code;
use crate::turn::Turn;
use kb_frames::{Outcome, SymState, SymValue};
use kb_heap::{Bound, Bounds};
use kb_picture::SymEnding;
use kb_semantics::World;
use std::alloc::Global;

/// The run ends as ill-typed at the instruction that was taken up.
pub fn ill_typed(turn: &Turn<'_>, _state: &SymState) -> Result<Outcome, NoMemory>
    requires { IsFor turn.now _state.now }
    ensures { IfOk result (λ outcome. told _state.now outcome ≡ led turn.now _state.now Fails) }
{
    let place = place_in_code(turn.alloc, turn.world, turn.method, turn.at)?;
    Ok(Outcome::Ends(SymEnding::IllTyped(place)))
}

/// Where no instruction is taken up of a run whose arguments are read, it is cut at the bound on steps, or its code has run off
/// its end. After memory ran out the state is only dropped.
pub fn takes_none(
    alloc: Global,
    world: &World,
    bounds: &Bounds,
    state: &mut SymState,
) -> Result<Outcome, NoMemory>
    ensures { IfOk result (λ outcome. told state.new outcome ≡ takes_none world.now bounds.now state.old) }
{
    if bounds.run.steps <= state.carried() {
        return Ok(Outcome::Cut(Bound::Steps));
    }
    state.begin(world)?;
    runs_off(alloc, world, state)
}

// The run ends as ill-typed where its code has run off its end.
fn runs_off(alloc: Global, world: &World, state: &SymState) -> Result<Outcome, NoMemory>
    ensures { IfOk result (λ outcome. told state.now outcome ≡ ill_typed world.now state.now) }
{
    let (method, at) = state.stands_at();
    let place = place_in_code(alloc, world, method, at)?;
    Ok(Outcome::Ends(SymEnding::IllTyped(place)))
}

/// Whether the current frame may have so many values on its stack: those that stay, and those that come.
pub fn has_room(turn: &Turn<'_>, _state: &SymState, kept: usize, more: usize) -> bool
    requires { IsFor turn.now _state.now }
    ensures { result ≡ has_room turn.now.world.now (method_now _state.now.method _state.now.stage) (kept + more) }
{
    let room = usize::from(turn.code.max_stack);
    if kept > room {
        return false;
    }
    more <= room - kept
}

/// The instruction was carried out, within the bound, and the next one is at that offset.
pub fn carry_on(turn: &Turn<'_>, state: &mut SymState, at: u32)
    requires { state.old.carried < turn.now.bounds.run.steps }
    ensures { state.new ≡ carried_on (on_frame (λ (frame : SymFrame). record frame { at = at }) state.old) }
{
    prove!(state.carried() < turn.bounds.run.steps);
    state.count_instruction();
    state.move_to(at);
}

/// It goes on at the next offset, with these values, the top last, in the place of so many on the stack.
pub fn replaces(
    turn: &Turn<'_>,
    state: &mut SymState,
    count: usize,
    values: &[SymValue],
) -> Result<Outcome, NoMemory>
    requires { IsFor turn.now state.old }
    ensures { IfOk result (λ outcome. told state.new outcome ≡ led turn.now state.old (Goes (locals_of state.old.stage) (reverse values.now ++ drop count (stack_of state.old.stage)))) }
{
    let kept = state.height().saturating_sub(count);
    if !has_room(turn, state, kept, values.len()) {
        return ill_typed(turn, state);
    }
    state.pop(count);
    push_all(state, values)?;
    carry_on(turn, state, turn.next);
    Ok(Outcome::Goes)
}

// Pushes these values, in order.
fn push_all(state: &mut SymState, values: &[SymValue]) -> Result<(), NoMemory>
    ensures { OnOk result (state.new ≡ on_frame (λ (frame : SymFrame). record frame { stack = reverse values.now ++ frame.stack }) state.old) }
{
    for value in values {
        state.push(*value)?;
    }
    Ok(())
}

/// It goes on at a target, with so many values fewer on the stack.
pub fn jumps(
    turn: &Turn<'_>,
    state: &mut SymState,
    count: usize,
    target: u32,
) -> Result<Outcome, NoMemory>
    requires { IsFor turn.now state.old }
    ensures { IfOk result (λ outcome. told state.new outcome ≡ led turn.now state.old (Jumps target (drop count (stack_of state.old.stage)))) }
{
    let kept = state.height().saturating_sub(count);
    if !has_room(turn, state, kept, 0) {
        return ill_typed(turn, state);
    }
    if target <= turn.at {
        if state.transfers() >= turn.bounds.run.loops {
            return Ok(Outcome::Cut(Bound::Loops));
        }
        state.count_transfer();
    }
    state.pop(count);
    carry_on(turn, state, target);
    Ok(Outcome::Goes)
}
