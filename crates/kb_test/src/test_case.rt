//! Tests.
use crate::FinalHeap;
use kb_heap::{Ending, Input, RunBounds};
use kb_names::Target;

/// A run of a method that is to end so.
#[derive(Drop)]
pub struct Test {
    pub target: Target,
    pub bounds: RunBounds,
    pub input: Input,
    /// How the run ends.
    pub ending: Ending,
    /// The heap at the run's end: the input objects, the literals, then the objects of the run.
    pub heap: FinalHeap,
}
