//! What the next step of a state takes up, found by one look.
ghost use Rattle.std.specs.Prelude.{◌≡◌};
ghost use Rattle.kb_stepint.specs.Looks.{IsLookAt};
ghost use Rattle.kb_ways.specs.Needs.{HasTerms};

use crate::questions::{IntQuestion, question_of};
use kb_frames::SymState;
use kb_heap::Bounds;
use kb_semantics::World;
use kb_ways::{Turn, taken_up};
use std::alloc::Global;

/// What the next step of a state takes up, and what it must be told.
#[derive(Drop)]
pub(crate) struct Look<'w> {
    /// The instruction that is taken up, where one is.
    pub turn: Option<Turn<'w>>,
    /// What must be told, where there is not the only way on.
    pub question: Option<IntQuestion<'w>>,
}

/// Looks at the next step of a state. It takes no memory.
pub(crate) fn look_at<'w>(
    alloc: Global,
    world: &'w World,
    state: &SymState,
    bounds: &Bounds,
) -> Look<'w>
    requires { HasTerms state.now }
    ensures { IsLookAt world.now bounds.now state.now result }
{
    match taken_up(alloc, world, bounds, state) {
        Some(turn) => {
            let question = question_of(state, turn.instr);
            Look {
                turn: Some(turn),
                question,
            }
        }
        None => Look {
            turn: None,
            question: None,
        },
    }
}
