//! What comes next in a state, and how it goes on.
ghost use Rattle.std.specs.Prelude.{◌≡◌, IfOk, OnOk};
ghost use Rattle.kb_class.specs.Naming.{Has};
ghost use Rattle.kb_ways.specs.Reached.{IsReached};
ghost use Rattle.kb_ways.specs.Advancing.{IsAdvanced};
ghost use Rattle.kb_ways.specs.Turns.{told};
ghost use Rattle.kb_picture.specs.declared.choice.Choice.TheVariants.{Only};
ghost use Rattle.kb_lazy.specs.Laws.{AreInRange};
ghost use Rattle.kb_drive.specs.Reached.{IsHeapReached};
ghost use Rattle.kb_terms.specs.Terms.{Extends};
ghost use Rattle.kb_drive.specs.Taking.{choices_at, taken_at};

use crate::NoMemory;
use kb_frames::{Outcome, SymState};
use kb_heap::Bounds;
use kb_picture::Choice;
use kb_rows::Row;
use kb_stepint::{advance_int, choices_int, take_int};
use kb_stepref::{advance_ref, choices_ref, take_ref};
use kb_ways::Advanced;
use kb_world::World;
use std::alloc::Global;

/// The alternatives of a state, in their order.
pub(crate) fn choices(
    alloc: Global,
    world: &World,
    state: &SymState,
    bounds: &Bounds,
) -> Result<Row<Choice>, NoMemory>
    requires { IsHeapReached world.now state.now }
    ensures { IfOk result (λ choices. choices ≡ choices_at world.now bounds.now state.now) }
{
    if state.next_is_int(world) {
        let choices = choices_int(alloc, world, state, bounds)?;
        return Ok(Row::from_vec(choices));
    }
    let choices = choices_ref(alloc, world, state, bounds)?;
    Ok(Row::from_vec(choices))
}

/// Takes an alternative of a state, which goes on by it. After memory ran out the state is only dropped.
pub(crate) fn take(
    alloc: Global,
    world: &World,
    state: &mut SymState,
    choice: &Choice,
    bounds: &Bounds,
) -> Result<Outcome, NoMemory>
    requires reached { IsHeapReached world.now state.old }
    requires range { AreInRange bounds.now }
    requires offered { Has (choices_at world.now bounds.now state.old) choice.now }
    ensures take { IfOk result (λ outcome. told state.new outcome ≡ taken_at world.now bounds.now state.old choice.now) }
    ensures reached { OnOk result (IsReached world.now state.new) }
    ensures terms { OnOk result (Extends state.old.nodes state.new.nodes) }
{
    if state.next_is_int(world) {
        let outcome = take_int(alloc, world, state, choice, bounds)?;
        return Ok(outcome);
    }
    let outcome = take_ref(alloc, world, state, choice, bounds)?;
    Ok(outcome)
}

/// Takes the only way on of a state, which goes on by it. Where there is none it stays, and its choice is told. After memory ran
/// out the state is only dropped.
pub(crate) fn advance(
    alloc: Global,
    world: &World,
    state: &mut SymState,
    bounds: &Bounds,
) -> Result<Advanced, NoMemory>
    requires reached { IsHeapReached world.now state.old }
    requires range { AreInRange bounds.now }
    ensures advanced { IfOk result (IsAdvanced (choices_at world.now bounds.now state.old) (taken_at world.now bounds.now state.old Only) state.old state.new) }
    ensures reached { OnOk result (IsReached world.now state.new) }
    ensures terms { OnOk result (Extends state.old.nodes state.new.nodes) }
{
    if state.next_is_int(world) {
        let advanced = advance_int(alloc, world, state, bounds)?;
        return Ok(advanced);
    }
    let advanced = advance_ref(alloc, world, state, bounds)?;
    Ok(advanced)
}
