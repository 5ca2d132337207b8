//! Terms in a list of their own, as texts write them: each names constants, variables and terms before it.
use crate::op::Op;

/// An operand of a listed term: an int, the variable of a number, or the term at that place of the list, from 0.
#[derive(Clone, Copy, PartialEq, Eq)]
pub enum Operand {
    Const(i32),
    Var(u32),
    Term(u32),
}

/// A listed term: an operation on operands, with a second one where the operation has two.
#[derive(Clone, Copy, PartialEq, Eq)]
pub struct Term {
    pub op: Op,
    pub left: Operand,
    pub right: Option<Operand>,
}
