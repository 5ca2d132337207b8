//! Whether conditions are decided in a state, and how they are added to it.
ghost use Rattle.std.specs.Prelude.{◌≡◌, IfOk, OnOk};
ghost use Rattle.kb_terms.specs.Terms.{Extends, IsTerm};
ghost use Rattle.kb_frames.specs.Lent.{with_nodes};
ghost use Rattle.kb_ways.specs.Asked.{asked, asked_truth, comparison_with, interned_side, is_against, known_value, number_of, term_of};
ghost use Rattle.kb_ways.specs.Needs.{AreSides, IsSide};

use crate::NoMemory;
use crate::condition::{Condition, Side};
use crate::terms::{constant, make};
use kb_frames::SymState;
use kb_terms::{Node, Op, Pool, TermId};

// The number of a side, where it is known.
fn number_of(pool: &Pool, side: Side) -> Option<i32>
    requires { IsSide pool.now side }
    ensures { result ≡ number_of pool.now side }
{
    match side {
        Side::Term(term) => pool.is_const(term),
        Side::Number(number) => Some(number),
    }
}

// The term of a side, where there is one.
fn term_of(pool: &Pool, side: Side) -> Option<TermId>
    ensures { result ≡ term_of pool.now side }
{
    match side {
        Side::Term(term) => Some(term),
        Side::Number(number) => pool.find(Node::Const(number)),
    }
}

fn known_value(op: Op, left: Option<i32>, right: Option<i32>) -> Option<i32>
    ensures { result ≡ known_value op left right }
{
    match (left, right) {
        (Some(left), Some(right)) => Some(op.apply(left, right)),
        (Some(_), None) | (None, _) => None,
    }
}

fn comparison_with(
    pool: &Pool,
    op: Op,
    left: Option<TermId>,
    right: Option<TermId>,
) -> Option<TermId>
    ensures { result ≡ comparison_with pool.now op left right }
{
    match (left, right) {
        (Some(left), Some(right)) => pool.find(Node::Op(op, left, Some(right))),
        (Some(_), None) | (None, _) => None,
    }
}

// The truth that a comparison has in a state, if it is decided there.
#[tactic(auto, using(crate::proofs::TermLaws::found_is_term, crate::proofs::TermLaws::found_no_constant))]
fn asked_truth(state: &SymState, condition: &Condition) -> Option<bool>
    requires { AreSides state.now.nodes condition.now }
    ensures { result ≡ asked_truth state.now condition.now }
{
    let pool = state.pool();
    let left = number_of(pool, condition.left);
    let right = number_of(pool, condition.right);
    if let Some(value) = known_value(condition.op, left, right) {
        return Some(value != 0);
    }
    let left = term_of(pool, condition.left);
    let right = term_of(pool, condition.right);
    let term = comparison_with(pool, condition.op, left, right)?;
    state.truth_of(term)
}

/// Whether the condition is decided in a state, and not as it asks.
pub fn is_against(state: &SymState, condition: &Condition) -> bool
    requires { AreSides state.now.nodes condition.now }
    ensures { result ≡ is_against (asked_truth state.now condition.now) condition.now.truth }
{
    match asked_truth(state, condition) {
        Some(so) => so != condition.truth,
        None => false,
    }
}

// The term of a side, which is made where there is none.
fn side_made(state: &mut SymState, side: Side) -> Result<TermId, NoMemory>
    requires { IsSide state.old.nodes side }
    ensures state { OnOk result (state.new ≡ with_nodes state.old (interned_side state.old.nodes side).0) }
    ensures term { IfOk result (λ t. t ≡ (interned_side state.old.nodes side).1) }
    ensures is_term { IfOk result (IsTerm state.new.nodes) }
    ensures extends { OnOk result (Extends state.old.nodes state.new.nodes) }
{
    match side {
        Side::Term(term) => Ok(term),
        Side::Number(number) => constant(state, number),
    }
}

/// Adds a condition to a state, unless it is decided there.
#[tactic(auto, using(crate::proofs::AskedLaws::later_is_side, crate::proofs::SideLaws::operands_there))]
pub fn ask(state: &mut SymState, condition: &Condition) -> Result<(), NoMemory>
    requires { AreSides state.old.nodes condition.now }
    ensures { OnOk result (state.new ≡ asked state.old condition.now) }
{
    let left = side_made(state, condition.left)?;
    let right = side_made(state, condition.right)?;
    let term = make(state, condition.op, left, Some(right))?;
    state.add_condition(term, condition.truth)?;
    Ok(())
}
