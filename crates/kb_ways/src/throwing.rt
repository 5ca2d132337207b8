//! What becomes of a thrown object: it goes to its handler, or ends the run (JVMS 8 section 2.10).
ghost use Rattle.std.specs.Prelude.{◌≡◌, ◌<◌, drop, map, option_and_then, slice_get, IfOk, OnOk};
ghost use Rattle.kb_frames.specs.declared.frame.SymFrame.{SymFrame as PlainFrame};
ghost use Rattle.kb_frames.specs.Calls.{frames_of};
ghost use Rattle.kb_semantics.specs.Ways.{counted, handler_at, nearest_handler};
ghost use Rattle.kb_ways.specs.Needs.{IsFor};
ghost use Rattle.kb_ways.specs.Turns.{led, thrown_now, told};
ghost use Rattle.kb_ways.specs.Ways.{Throws, caught, kind_thrown, lands, lands_in, stands_at, thrown, uncaught, value_thrown, with_thrown};

use crate::NoMemory;
use crate::calls::out_of;
use crate::exception::Thrown;
use crate::turn::Turn;
use crate::ways::{carry_on, ill_typed};
use kb_frames::{FrameAt, Outcome, SymState, SymValue};
use kb_heap::{Bound, RunBounds};
use kb_lookups::{handler_at, max_stack};
use kb_names::ExactType;
use kb_picture::SymEnding;
use kb_semantics::World;

/// A new object of the class is thrown. After memory ran out the state is only dropped.
pub fn throws(turn: &Turn<'_>, state: &mut SymState, class: &[u8]) -> Result<Outcome, NoMemory>
    requires { IsFor turn.now state.old }
    ensures { IfOk result (λ outcome. told state.new outcome ≡ led turn.now state.old (Throws class.now)) }
{
    thrown(turn, state, Thrown::Class(class))
}

/// Hands a thrown object to the nearest handler, on the way from the current frame to its callers, or ends the run. It takes time
/// in proportion to the frames that it leaves and the entries of their handler tables, and to the slots of an object that it
/// makes. After memory ran out the state is only dropped.
#[tactic(auto, unfolding(crate::specs::Ways::thrown))]
pub fn thrown(turn: &Turn<'_>, state: &mut SymState, it: Thrown<'_>) -> Result<Outcome, NoMemory>
    requires { IsFor turn.now state.old }
    ensures { IfOk result (λ outcome. told state.new outcome ≡ thrown turn.now.world.now turn.now.bounds state.old (thrown_now it.entry)) }
{
    match handler_of(turn, state, it)? {
        Some((count, target)) => land(turn, state, it, count, target),
        None => end(turn, state, it),
    }
}

// The nearest handler that takes it: how many frames are left, and where it goes on.
fn handler_of(
    turn: &Turn<'_>,
    state: &SymState,
    it: Thrown<'_>,
) -> Result<Option<(usize, u32)>, NoMemory>
    ensures { IfOk result (λ found. found ≡ nearest_handler turn.now.world.now (kind_thrown (thrown_now it.entry)) (map stands_at (frames_of state.now.stage))) }
{
    match it {
        Thrown::Class(class) => {
            let name = turn.world.shared_name(turn.alloc, class)?;
            Ok(nearest_handler(turn.world, state, &ExactType::Class(name)))
        }
        Thrown::Obj(_, kind) | Thrown::New(_, kind) => {
            Ok(nearest_handler(turn.world, state, kind))
        }
    }
}

// The nearest handler that takes an object of the exact type.
fn nearest_handler(world: &World, state: &SymState, kind: &ExactType) -> Option<(usize, u32)>
    ensures { result ≡ nearest_handler world.now kind.now (map stands_at (frames_of state.now.stage)) }
{
    for depth in 0..=state.callers() {
        if let Some(target) = handler_so_deep(world, state, depth, kind) {
            return Some((depth, target));
        }
    }
    None
}

// That of the frame so deep.
fn handler_so_deep(world: &World, state: &SymState, depth: usize, kind: &ExactType) -> Option<u32>
    ensures { result ≡ option_and_then (λ (frame : PlainFrame). handler_at world.now frame.method frame.at kind.now) (slice_get (frames_of state.now.stage) depth) }
{
    let frame = state.frame_at(depth)?;
    handler_at(world, frame.method, frame.at, kind)
}

// So many frames are left, and the next one takes it at the target, where it may.
fn land(
    turn: &Turn<'_>,
    state: &mut SymState,
    it: Thrown<'_>,
    count: usize,
    target: u32,
) -> Result<Outcome, NoMemory>
    requires { IsFor turn.now state.old }
    ensures { IfOk result (λ outcome. told state.new outcome ≡ lands turn.now.world.now turn.now.bounds state.old (thrown_now it.entry) count target (drop count (frames_of state.old.stage))) }
{
    match state.frame_at(count) {
        Some(frame) => land_in(turn, state, it, count, target, frame),
        None => ill_typed(turn, state),
    }
}

// That next frame is the one that is told.
fn land_in(
    turn: &Turn<'_>,
    state: &mut SymState,
    it: Thrown<'_>,
    count: usize,
    target: u32,
    frame: FrameAt,
) -> Result<Outcome, NoMemory>
    requires { IsFor turn.now state.old }
    ensures { IfOk result (λ outcome. told state.new outcome ≡ lands_in turn.now.world.now turn.now.bounds state.old (thrown_now it.entry) count target frame) }
{
    if max_stack(turn.world, frame.method) == 0 {
        return ill_typed(turn, state);
    }
    match counted(turn.bounds.run, frame, target) {
        Some(transfers) => catch(turn, state, it, count, target, transfers),
        None => Ok(Outcome::Cut(Bound::Loops)),
    }
}

// How many transfers to an offset not above its own the frame counts once it goes on at the target: None where that would be one
// more than the bound.
fn counted(bounds: RunBounds, frame: FrameAt, target: u32) -> Option<u32>
    ensures { result ≡ counted bounds frame.at target frame.transfers }
{
    if target > frame.at {
        return Some(frame.transfers);
    }
    if frame.transfers >= bounds.loops {
        return None;
    }
    Some(frame.transfers + 1)
}

// So many frames are left, and the next one takes it at the target.
fn catch(
    turn: &Turn<'_>,
    state: &mut SymState,
    it: Thrown<'_>,
    count: usize,
    target: u32,
    transfers: u32,
) -> Result<Outcome, NoMemory>
    requires { state.old.carried < turn.now.bounds.run.steps }
    ensures { IfOk result (λ outcome. told state.new outcome ≡ caught turn.now.world.now state.old (thrown_now it.entry) count target transfers) }
{
    let value = made(turn, state, it)?;
    state.land(count, value, transfers)?;
    carry_on(turn, state, target);
    Ok(Outcome::Goes)
}

// It ends the run.
fn end(turn: &Turn<'_>, state: &mut SymState, it: Thrown<'_>) -> Result<Outcome, NoMemory>
    ensures { IfOk result (λ outcome. told state.new outcome ≡ uncaught turn.now.world.now state.old (thrown_now it.entry)) }
{
    let value = made(turn, state, it)?;
    Ok(Outcome::Ends(SymEnding::Threw(out_of(value))))
}

// The thrown object, which is made where it is not there.
fn made(turn: &Turn<'_>, state: &mut SymState, it: Thrown<'_>) -> Result<SymValue, NoMemory>
    ensures value { IfOk result (λ value. value ≡ value_thrown state.old (thrown_now it.entry)) }
    ensures state { OnOk result (state.new ≡ with_thrown turn.now.world.now state.old (thrown_now it.entry)) }
{
    match it {
        Thrown::Class(class) => {
            let number = state.make_object(turn.world, class)?;
            Ok(SymValue::New(number))
        }
        Thrown::Obj(number, _) => Ok(SymValue::Obj(number)),
        Thrown::New(number, _) => Ok(SymValue::New(number)),
    }
}
