//! What surrounds one step, and what a step comes to.

use kb_class::MethodId;
use kb_heap::{Bound, RunBounds, Value};
use kb_world::World;
use std::alloc::Global;

/// What stays the same through one step.
#[derive(Drop)]
pub(crate) struct Turn<'w> {
    pub(crate) alloc: Global,
    pub(crate) world: &'w World,
    pub(crate) bounds: RunBounds,
    /// How many objects the input has.
    pub(crate) inputs: u32,
    /// How many instructions were carried out before.
    pub(crate) carried: u32,
    /// The offset behind the instruction.
    pub(crate) next: u32,
}

/// What a step comes to.
#[derive(Clone, Copy, PartialEq, Eq)]
pub(crate) enum Step {
    Goes,
    Returned(Option<Value>),
    Threw(u32),
    /// At that offset of the method.
    IllTyped(MethodId, u32),
    Past(Bound),
}
