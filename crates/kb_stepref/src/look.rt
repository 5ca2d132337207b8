//! What the next step of a state takes up, found by one look.
ghost use Rattle.std.specs.Prelude.{◌≡◌, option_and_then, IfOk, IfSome};
ghost use Rattle.kb_steparray.specs.Arrays.{HasCounts};
ghost use Rattle.kb_stepref.specs.Looks.{IsLookAt, IsReadAt, asks_at, reads_at_turn};

use crate::NoMemory;
use crate::fields::{FieldAt, field_read};
use crate::questions::question_of;
use kb_frames::SymState;
use kb_heap::Bounds;
use kb_semantics::World;
use kb_ways::{Question, Turn, taken_up};
use std::alloc::Global;

/// What the next step of a state takes up, and what it must be told.
#[derive(Drop)]
pub(crate) struct Look<'w> {
    /// The instruction that is taken up, where one is.
    pub turn: Option<Turn<'w>>,
    /// The field that it reads, where it is a getfield of an object of the picture that has it.
    pub field: Option<FieldAt<'w>>,
    /// What must be told, if anything: the next argument, or what the instruction asks.
    pub question: Option<Question>,
}

/// Looks at the next step of a state.
pub(crate) fn look_at<'w>(
    alloc: Global,
    world: &'w World,
    state: &SymState,
    bounds: &Bounds,
) -> Result<Look<'w>, NoMemory>
    requires { HasCounts state.now }
    ensures { IfOk result (IsLookAt world.now bounds.now state.now) }
{
    let turn = taken_up(alloc, world, bounds, state);
    let field = field_taken(world, state, &turn);
    let question = question_of(alloc, world, bounds, state, &turn, &field)?;
    Ok(Look {
        turn,
        field,
        question,
    })
}

// The field that the instruction of a turn reads.
fn field_taken<'w>(
    world: &'w World,
    state: &SymState,
    turn: &Option<Turn<'w>>,
) -> Option<FieldAt<'w>>
    ensures read { IfSome result (IsReadAt world.now state.now turn.now) }
    ensures asks { option_and_then (reads_at_turn world.now state.now) turn.now ≡ option_and_then (asks_at state.now) result }
{
    match turn {
        Some(turn) => field_read(world, state, turn.instr),
        None => None,
    }
}
