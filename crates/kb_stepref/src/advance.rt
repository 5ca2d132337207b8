//! What a state becomes by the only way on.
ghost use Rattle.std.specs.Prelude.{IfOk, OnOk};
ghost use Rattle.kb_lazy.specs.Laws.{AreInRange};
ghost use Rattle.kb_picture.specs.declared.choice.Choice.TheVariants.{Only};
ghost use Rattle.kb_stepref.specs.Choices.{choices_of};
ghost use Rattle.kb_stepref.specs.Laws.{IsAtReferences};
ghost use Rattle.kb_stepref.specs.Takes.{taken};
ghost use Rattle.kb_ways.specs.Advancing.{IsAdvanced};
ghost use Rattle.kb_ways.specs.Reached.{IsReached};

use crate::NoMemory;
use crate::choices::offered;
use crate::look::look_at;
use crate::questions::is_choice;
use crate::take::take_told;
use kb_frames::SymState;
use kb_heap::Bounds;
use kb_picture::Choice;
use kb_semantics::World;
use kb_ways::Advanced;
use std::alloc::Global;

/// Takes the next step on references of a state where there is the only way on, as [`crate::take_ref`] takes it, and makes no
/// list for it. Else it gives the alternatives, as [`crate::choices_ref`] lists them, and the state stays as it is.
///
/// After memory ran out the state is only dropped or undone.
pub fn advance_ref(
    alloc: Global,
    world: &World,
    state: &mut SymState,
    bounds: &Bounds,
) -> Result<Advanced, NoMemory>
    requires at { IsAtReferences world.now state.old }
    requires range { AreInRange bounds.now }
    ensures advanced { IfOk result (IsAdvanced (choices_of world.now state.old bounds.now) (taken world.now bounds.now state.old Only) state.old state.new) }
    ensures reached { OnOk result (IsReached world.now state.new) }
{
    let look = look_at(alloc, world, state, bounds)?;
    if is_choice(&look.question) {
        let choices = offered(alloc, world, state, bounds, &look.question)?;
        return Ok(Advanced::Chooses(choices));
    }
    let outcome = take_told(alloc, world, state, &Choice::Only, bounds, &look)?;
    Ok(Advanced::Took(outcome))
}
