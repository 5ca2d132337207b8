//! What a run changes: its frames, its heap and its names.

use crate::names::Names;
use kb_heap::Heap;
use kb_stack::{Callers, Frame};

/// The current frame, those of its callers, the heap, and the names of the classes of its objects.
#[derive(Drop)]
pub(crate) struct State {
    pub(crate) frame: Frame,
    pub(crate) callers: Callers,
    pub(crate) heap: Heap,
    pub(crate) names: Names,
}
