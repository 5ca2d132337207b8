//! Calls and returns: a method is entered, and left for its caller (JVMS 8 sections 2.6 and 6.5).
ghost use Rattle.std.specs.Prelude.{◌≡◌, List, drop, length, option_map, reverse, take, Some, IfOk, OnOk};
ghost use Rattle.kb_semantics.specs.Config.{has_room};
ghost use Rattle.kb_picture.specs.declared.path.SymEnding.TheVariants.{Returned};
ghost use Rattle.kb_frames.specs.declared.frame.SymFrame.{SymFrame};
ghost use Rattle.kb_frames.specs.declared.value.SymValue.{SymValue as PlainValue};
ghost use Rattle.kb_frames.specs.Lent.{on_frame, stack_of};
ghost use Rattle.kb_frames.specs.StandsFor.{out_of};
ghost use Rattle.kb_ways.specs.Needs.{IsFor, IsTermOf};
ghost use Rattle.kb_ways.specs.Plans.{returns_value};
ghost use Rattle.kb_ways.specs.Turns.{led, led_by, told};
ghost use Rattle.kb_ways.specs.Ways.{Enters, Leaves, with_result};

use crate::NoMemory;
use crate::kept::keep;
use crate::method::result_of;
use crate::turn::Turn;
use crate::ways::{carry_on, ill_typed};
use kb_class::MethodId;
use kb_frames::{Outcome, SymState, SymValue};
use kb_heap::Bound;
use kb_lookups::{behind, max_stack};
use kb_picture::{Operand, Out, SymEnding};
use kb_semantics::World;

/// A method with code is entered with so many values from the top of the stack, the last argument being on the top; one frame
/// more than the bound is past depth, and nothing is done. After memory ran out the state is only dropped.
#[tactic(auto, unfolding(crate::specs::Ways::entered))]
pub fn enters(
    turn: &Turn<'_>,
    state: &mut SymState,
    method: MethodId,
    count: usize,
) -> Result<Outcome, NoMemory>
    requires { IsFor turn.now state.old }
    ensures { IfOk result (λ outcome. told state.new outcome ≡ led turn.now state.old (Enters method (reverse (take count (stack_of state.old.stage))) (drop count (stack_of state.old.stage)))) }
{
    if (turn.bounds.run.depth as usize).saturating_sub(state.callers()) < 2 {
        return Ok(Outcome::Cut(Bound::Depth));
    }
    state.call(turn.world, method, count)?;
    prove!(state.carried() < turn.bounds.run.steps);
    state.count_instruction();
    Ok(Outcome::Goes)
}

/// The method returns a value, or none: the nearest caller gets it, or the run ends where there is no caller. The caller's code is
/// looked up. After memory ran out the state is only dropped.
#[tactic(auto, unfolding(crate::specs::Ways::returned))]
pub fn returns(
    turn: &Turn<'_>,
    state: &mut SymState,
    value: Option<SymValue>,
) -> Result<Outcome, NoMemory>
    requires { IsFor turn.now state.old }
    ensures { IfOk result (λ outcome. told state.new outcome ≡ led turn.now state.old (Leaves value)) }
{
    let Some(caller) = state.frame_at(1) else {
        return Ok(Outcome::Ends(returned(value)));
    };
    if !takes_result(turn.world, caller.method, caller.height, value) {
        return ill_typed(turn, state);
    }
    state.leave(1);
    give(state, value)?;
    let (method, at) = state.stands_at();
    carry_on(turn, state, behind(turn.world, method, at));
    Ok(Outcome::Goes)
}

// The end of a run that returns so.
fn returned(value: Option<SymValue>) -> SymEnding
    ensures { result ≡ Returned (option_map out_of value) }
{
    match value {
        Some(value) => SymEnding::Returned(Some(out_of(value))),
        None => SymEnding::Returned(None),
    }
}

// Whether the method may have the result on a stack of that height.
fn takes_result(world: &World, method: MethodId, height: usize, value: Option<SymValue>) -> bool
    ensures { (stack : List PlainValue) → length stack ≡ height → result ≡ has_room world.now method (length (with_result value stack)) }
{
    let room = usize::from(max_stack(world, method));
    match value {
        Some(_) => height < room,
        None => height <= room,
    }
}

// Puts a result on the stack: none of void.
fn give(state: &mut SymState, value: Option<SymValue>) -> Result<(), NoMemory>
    ensures { OnOk result (state.new ≡ on_frame (λ (frame : SymFrame). record frame { stack = with_result value frame.stack }) state.old) }
{
    match value {
        Some(value) => state.push(value),
        None => Ok(()),
    }
}

/// The method returns what its result's type keeps of a value.
pub fn return_value(
    turn: &Turn<'_>,
    state: &mut SymState,
    value: SymValue,
) -> Result<Outcome, NoMemory>
    requires term { IsTermOf state.old.nodes (Some value) }
    requires stands { IsFor turn.now state.old }
    ensures { IfOk result (λ outcome. told state.new outcome ≡ led_by turn.now (returns_value turn.now.world.now state.old value)) }
{
    let Some(kind) = result_of(turn.world, turn.method) else {
        return ill_typed(turn, state);
    };
    match keep(state, kind, value)? {
        Some(value) => returns(turn, state, Some(value)),
        None => ill_typed(turn, state),
    }
}

/// A value as one that a path states.
pub(crate) fn out_of(value: SymValue) -> Out
    ensures { result ≡ out_of value }
{
    match value {
        SymValue::Int(term) => Out::Int(Operand::Term(term.0)),
        SymValue::Null => Out::Null,
        SymValue::Obj(number) => Out::Obj(number),
        SymValue::Literal(number) => Out::Literal(number),
        SymValue::New(number) => Out::New(number),
        SymValue::Loc(number) => Out::Loc(number),
    }
}
