//! What a state becomes by the only way on.
ghost use Rattle.std.specs.Prelude.{◌≡◌, true, IfOk, OnOk};
ghost use Rattle.kb_frames.specs.Next.{next_is_int};
ghost use Rattle.kb_picture.specs.declared.choice.Choice.TheVariants.{Only};
ghost use Rattle.kb_stepint.specs.Choices.{choices_of};
ghost use Rattle.kb_stepint.specs.Takes.{taken};
ghost use Rattle.kb_ways.specs.Advancing.{IsAdvanced};
ghost use Rattle.kb_ways.specs.Reached.{IsReached};

use crate::NoMemory;
use crate::choices::alternatives;
use crate::look::look_at;
use crate::take::take_told;
use kb_frames::SymState;
use kb_heap::Bounds;
use kb_picture::Choice;
use kb_semantics::World;
use kb_ways::Advanced;
use std::alloc::Global;

/// Takes the next int step of a state where there is the only way on, as [`crate::take_int`] takes it, and makes no list for it.
/// Else it gives the alternatives, as [`crate::choices_int`] lists them, and the state stays as it is.
///
/// After memory ran out the state is only dropped or undone.
pub fn advance_int(
    alloc: Global,
    world: &World,
    state: &mut SymState,
    bounds: &Bounds,
) -> Result<Advanced, NoMemory>
    requires reached { IsReached world.now state.old }
    requires int { next_is_int world.now state.old ≡ true }
    ensures advanced { IfOk result (IsAdvanced (choices_of world.now state.old bounds.now) (taken world.now bounds.now state.old Only) state.old state.new) }
    ensures reached { OnOk result (IsReached world.now state.new) }
{
    let look = look_at(alloc, world, state, bounds);
    match &look.question {
        Some(question) => {
            let choices = alternatives(alloc, state, question)?;
            Ok(Advanced::Chooses(choices))
        }
        None => {
            let outcome = take_told(alloc, world, state, &Choice::Only, bounds, &look)?;
            Ok(Advanced::Took(outcome))
        }
    }
}
