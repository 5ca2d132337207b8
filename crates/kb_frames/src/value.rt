//! Symbolic values, and what a step of a state gives.

use kb_heap::Bound;
use kb_picture::SymEnding;
use kb_terms::TermId;

/// A value of a state. A location keeps its number also when it is known which object it is.
#[derive(Clone, Copy, PartialEq, Eq)]
pub enum SymValue {
    Int(TermId),
    Null,
    /// The object of the picture of that number.
    Obj(u32),
    /// The string literal of that number.
    Literal(u32),
    /// The object of that number among those that the run has made.
    New(u32),
    /// The location of that number.
    Loc(u32),
}

/// What becomes of a state when a choice is taken.
#[derive(Drop)]
pub enum Outcome {
    /// The instruction needs another choice.
    Asks,
    /// The instruction was carried out.
    Goes,
    /// The run ends so. The terms of the ending are those of the state's pool.
    Ends(SymEnding),
    /// The run, or its input, goes beyond the bound.
    Cut(Bound),
}

/// What a slot or an element of an object of the picture holds.
#[derive(Clone, Copy, PartialEq, Eq)]
pub enum Cell {
    /// As at the start of the run, and not known.
    Untouched,
    /// As at the start, and seen so.
    Read(SymValue),
    /// The last value that the run wrote there.
    Written(SymValue),
}
