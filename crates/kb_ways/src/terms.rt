//! Terms that a step makes, each with the whole state afterwards.
ghost use Rattle.std.specs.Prelude.{◌≡◌, drop, IfOk, OnOk};
ghost use Rattle.kb_arith.specs.Word.{truth};
ghost use Rattle.kb_terms.specs.declared.node.Node.TheVariants.{Const};
ghost use Rattle.kb_terms.specs.Terms.{AreOperands, Extends, IsPool, IsTerm, interned};
ghost use Rattle.kb_frames.specs.Lent.{stack_of, with_nodes};
ghost use Rattle.kb_ways.specs.Asked.{interned_op};
ghost use Rattle.kb_ways.specs.Needs.{IsFor};
ghost use Rattle.kb_ways.specs.Plans.{pushes_term};
ghost use Rattle.kb_ways.specs.Turns.{led_by, told};

use crate::NoMemory;
use crate::turn::Turn;
use crate::ways::replaces;
use kb_frames::{Outcome, SymState, SymValue};
use kb_terms::{Op, TermId};

/// The term of an int.
#[tactic(auto, using(kb_terms::proofs::Finding::pool_is, kb_terms::proofs::Finding::term_is))]
pub fn constant(state: &mut SymState, value: i32) -> Result<TermId, NoMemory>
    ensures state { OnOk result (state.new ≡ with_nodes state.old (interned state.old.nodes (Const value)).0) }
    ensures term { IfOk result (λ t. t ≡ (interned state.old.nodes (Const value)).1) }
    ensures is_term { IfOk result (IsTerm state.new.nodes) }
    ensures extends { OnOk result (Extends state.old.nodes state.new.nodes) }
{
    match state.constant(value) {
        Ok(term) => Ok(of_pool(state, term)),
        Err(_) => Err(NoMemory),
    }
}

/// It goes on at the next offset, with the term of a number in the place of so many values on the stack.
pub fn push_number(
    turn: &Turn<'_>,
    state: &mut SymState,
    count: usize,
    number: i32,
) -> Result<Outcome, NoMemory>
    requires { IsFor turn.now state.old }
    ensures { IfOk result (λ outcome. told state.new outcome ≡ led_by turn.now (pushes_term state.old (drop count (stack_of state.old.stage)) (interned state.old.nodes (Const number)))) }
{
    let term = constant(state, number)?;
    replaces(turn, state, count, &[SymValue::Int(term)])
}

/// So with 1 where that is so, and else 0.
pub fn push_truth(
    turn: &Turn<'_>,
    state: &mut SymState,
    count: usize,
    so: bool,
) -> Result<Outcome, NoMemory>
    requires { IsFor turn.now state.old }
    ensures { IfOk result (λ outcome. told state.new outcome ≡ led_by turn.now (pushes_term state.old (drop count (stack_of state.old.stage)) (interned state.old.nodes (Const (truth so))))) }
{
    let number = if so { 1 } else { 0 };
    push_number(turn, state, count, number)
}

/// The term of an operation on terms.
#[tactic(auto, using(kb_terms::proofs::Finding::pool_is, kb_terms::proofs::Finding::term_is))]
pub fn make(
    state: &mut SymState,
    op: Op,
    left: TermId,
    right: Option<TermId>,
) -> Result<TermId, NoMemory>
    requires { AreOperands state.old.nodes op left right }
    ensures state { OnOk result (state.new ≡ with_nodes state.old (interned_op state.old.nodes op left right).0) }
    ensures term { IfOk result (λ t. t ≡ (interned_op state.old.nodes op left right).1) }
    ensures is_term { IfOk result (IsTerm state.new.nodes) }
    ensures extends { OnOk result (Extends state.old.nodes state.new.nodes) }
{
    match state.make(op, left, right) {
        Ok(term) => Ok(of_pool(state, term)),
        Err(_) => Err(NoMemory),
    }
}

// A term of a state, whose terms are those of a pool.
fn of_pool(state: &SymState, term: TermId) -> TermId
    ensures same { result ≡ term }
    ensures formed { IsPool state.now.nodes }
{
    let _ = state.pool().nodes();
    term
}
