//! The choices of an exploration.

use crate::picture::Length;
use kb_names::ExactType;

/// An alternative of a choice.
#[derive(Drop)]
pub enum Choice {
    /// The only way on: nothing is chosen.
    Only,
    // What a reference is that is read for the first time.
    Null,
    /// A location: which object it is, is chosen when it is looked into.
    Location,
    /// The object of the picture of that number.
    Alias(u32),
    /// An object that the picture did not have.
    Fresh(ExactType, Length),
    /// An object that is none of the picture's, deeper than the bound.
    Beyond,
    /// Whether a branch is taken.
    Branch(bool),
    /// The key of that place among a switch's.
    Key(u32),
    /// None of a switch's keys.
    Default,
    // The divisor.
    Zero,
    NotZero,
    /// An index, and one outside the array.
    Index(u32),
    Outside,
    // The length of an array that is made.
    Negative,
    Size(u32),
    TooLarge,
}

/// When it is chosen which object a reference is.
#[derive(Clone, Copy, PartialEq, Eq)]
pub enum Init {
    /// When it is read for the first time (Khurshid, Păsăreanu and Visser, 2003).
    Lazy,
    /// When the object is looked into for the first time (Deng, Lee and Robby, 2006).
    Lazier,
}
