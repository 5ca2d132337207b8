//! What becomes of a state that is taken on.
ghost use Rattle.std.specs.Prelude.{◌≡◌, IfOk};
ghost use Rattle.kb_ways.specs.Advancing.{only};

use crate::NoMemory;
use kb_frames::Outcome;
use kb_picture::Choice;
use std::alloc::Global;

/// What becomes of a state that takes the only way on, and of one that has a choice.
#[derive(Drop)]
pub enum Advanced {
    /// It has a choice of these, and nothing was done.
    Chooses(Vec<Choice>),
    /// It took the only way on.
    Took(Outcome),
}

/// The alternatives where nothing is chosen.
pub fn only_way_on(alloc: Global) -> Result<Vec<Choice>, NoMemory>
    ensures { IfOk result (λ choices. choices.items ≡ only) }
{
    let mut choices = Vec::new(alloc);
    choices.push(Choice::Only)?;
    Ok(choices)
}
