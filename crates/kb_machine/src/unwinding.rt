//! How an exception finds its handler (JVMS 8 section 2.10).

ghost use Rattle.std.specs.Prelude.{◌≡◌, [], ◌∷◌, ℕ, List};
ghost use Rattle.kb_heap.specs.declared.heap.Heap.{Heap as PlainHeap};
ghost use Rattle.kb_semantics.specs.Config.{Config, Frame as PlainFrame};
ghost use Rattle.kb_heap.specs.declared.heap.Value.TheVariants.{Ref};
ghost use Rattle.kb_semantics.specs.Ways.{goes_to, handler_at};
ghost use Rattle.kb_machine.specs.Turns.{setting_of};
ghost use Rattle.kb_machine.specs.Landings.{landed, unwound};

use crate::turn::Turn;
use kb_lookups::handler_at;
use kb_names::ExactType;
use kb_stack::{Callers, Frame};
use kb_world::World;

/// Where an exception comes to.
#[derive(Clone, Copy)]
pub(crate) enum Landing {
    /// The frame goes on at a handler.
    Caught,
    Uncaught,
    /// The frame of a handler may have no value on its stack.
    IllTyped,
    /// The handler would be one transfer back too many.
    PastLoops,
}

/// The exception goes through the frames up to one that has a handler for it, which goes on there. The others are given up.
pub(crate) fn unwind(
    turn: &Turn<'_>,
    frame: &mut Frame,
    callers: &mut Callers,
    kind: &ExactType,
) -> Landing
    ensures { (c : Config) (heap : PlainHeap) (object : ℕ) → unwound (setting_of turn.now) c heap object kind.now (frame.old ∷ callers.old) ≡ landed turn.now result c heap object frame.new callers.new }
{
    let mut target = handler_of(turn.world, frame, kind);
    while target.is_none() {
        let Some(caller) = callers.pop() else {
            return Landing::Uncaught;
        };
        *frame = caller;
        target = handler_of(turn.world, frame, kind);
    }
    match target {
        Some(target) => land(turn, frame, target),
        None => Landing::Uncaught,
    }
}

// The frame goes on at a handler.
#[tactic(auto, unfolding(kb_semantics::specs::Ways::goes_to))]
fn land(turn: &Turn<'_>, frame: &mut Frame, target: u32) -> Landing
    ensures { (c : Config) (heap : PlainHeap) (object : ℕ) (callers : List PlainFrame) → goes_to (setting_of turn.now) c frame.old callers target (Ref object ∷ []) heap ≡ landed turn.now result c heap object frame.new callers }
{
    if !frame.may_have_one(turn.world) {
        return Landing::IllTyped;
    }
    if !frame.transfer(&turn.bounds, target) {
        return Landing::PastLoops;
    }
    Landing::Caught
}

// Where the first handler of the frame goes on that takes an object of the exact type.
fn handler_of(world: &World, frame: &Frame, kind: &ExactType) -> Option<u32>
    ensures { result ≡ handler_at world.now frame.now.method frame.now.at kind.now }
{
    handler_at(world, frame.method(), frame.at(), kind)
}
