//! Terms and their nodes.
ghost use Rattle.std.specs.Prelude.{◌≡◌};
ghost use Rattle.kb_terms.specs.Terms.{is_variable};

use crate::op::Op;

/// The number of a term in its pool: its place among the pool's nodes, from 0.
#[derive(Clone, Copy, PartialEq, Eq, Hash)]
pub struct TermId(pub u32);

/// What a variable stands for: an int, or a boolean, which is 0 or 1.
#[derive(Clone, Copy, PartialEq, Eq, Hash)]
pub enum VarKind {
    Int,
    Bool,
}

/// What a term is: a constant, the variable of a number, or an operation on earlier terms, with a second operand
/// where the operation has two.
#[derive(Clone, Copy, PartialEq, Eq, Hash)]
pub enum Node {
    Const(i32),
    Var(u32, VarKind),
    Op(Op, TermId, Option<TermId>),
}

impl Node {
    // Whether it is a variable.
    pub(crate) fn is_variable(self) -> bool
        ensures { result ≡ is_variable self }
    {
        matches!(self, Node::Var(..))
    }
}
