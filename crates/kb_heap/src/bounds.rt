//! The bounds of a run and of an exploration.

/// The bounds of a run. A run ends as past a bound at the instruction that would go beyond it.
#[derive(Clone, Copy, PartialEq, Eq)]
pub struct RunBounds {
    /// The greatest length of an array that is made in the run.
    pub alloc: u32,
    /// How often an activation of a method may go back to an offset that is not above its own.
    pub loops: u32,
    /// The greatest number of frames.
    pub depth: u32,
    /// The greatest number of instructions that are carried out.
    pub steps: u32,
}

/// The bounds of an exploration: those of its runs and those of its inputs.
#[derive(Clone, Copy, PartialEq, Eq)]
pub struct Bounds {
    /// The greatest depth of an input object; one in an argument has depth 1, one in its slot depth 2.
    pub k: u32,
    /// The greatest length of an input array.
    pub array: u32,
    pub run: RunBounds,
}

/// One of the bounds.
#[derive(Clone, Copy, PartialEq, Eq)]
pub enum Bound {
    K,
    Array,
    Alloc,
    Loops,
    Depth,
    Steps,
}
