//! The paths of an exploration, and what they state.

use crate::picture::{Origin, Picture};
use kb_chain::Log;
use kb_heap::{Bound, Input, Place};
use kb_names::ExactType;
use kb_rows::Row;
use kb_terms::{Operand, Term};

/// A value that a run leaves, as a path states it for each of its inputs.
#[derive(Clone, Copy, PartialEq, Eq)]
pub enum Out {
    Int(Operand),
    Null,
    /// The object that an open location is.
    Loc(u32),
    /// The object of the picture of that number.
    Obj(u32),
    /// The string literal of that number.
    Literal(u32),
    /// The object of that number among those that the run made.
    New(u32),
}

/// A slot of an object of the picture that the run wrote, and the last value there.
#[derive(Clone, Copy, PartialEq, Eq)]
pub struct Write {
    pub slot: Origin,
    pub value: Out,
}

/// An object that the run made, with the last values of its slots or elements.
#[derive(Drop)]
pub struct Made {
    pub kind: ExactType,
    pub values: Row<Out>,
}

/// How a run ends.
#[derive(Drop)]
pub enum SymEnding {
    /// The method has returned, with a value unless its result is `void`.
    Returned(Option<Out>),
    /// That object was thrown and not caught.
    Threw(Out),
    /// The instruction there does not fit the values that it meets.
    IllTyped(Place),
}

/// How the runs of an ended path's inputs end, and one of these inputs.
#[derive(Drop)]
pub struct Ended {
    pub ending: SymEnding,
    pub writes: Row<Write>,
    pub made: Row<Made>,
    pub input: Input,
}

/// Where a path ends.
#[derive(Drop)]
pub enum Leaf {
    /// Every run of its inputs ends so.
    Ended(Ended),
    /// Every one of its inputs goes beyond that bound, as the input that it carries.
    Cut(Bound, Input),
    /// Whether there is an input was not decided: the log is what the search has found.
    Undecided(Log),
    /// Whether there is an input was not asked.
    Open,
}

/// A path: the choices that lead to it, the picture of its inputs, its terms, each after its operands, its conditions, each the
/// number of a term with its truth, and its leaf.
#[derive(Drop)]
pub struct Path {
    pub decisions: Row<u32>,
    pub picture: Picture,
    pub terms: Row<Term>,
    pub when: Row<(u32, bool)>,
    pub leaf: Leaf,
}
