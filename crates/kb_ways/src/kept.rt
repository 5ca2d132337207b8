//! What a type keeps of a symbolic value.
ghost use Rattle.std.specs.Prelude.{◌≡◌, pos, None, Some, option_map, IfOk, OnOk};
ghost use Rattle.kb_terms.specs.Terms.{IsTerm, interned};
ghost use Rattle.kb_terms.specs.declared.node.Node.TheVariants.{Const};
ghost use Rattle.kb_frames.specs.declared.value.SymValue.{SymValue};
ghost use Rattle.kb_frames.specs.Lent.{with_nodes};
ghost use Rattle.kb_ways.specs.Kept.{is_of_kind, kept, kept_in, masked};
ghost use Rattle.kb_ways.specs.Needs.{IsTermOf};

use crate::NoMemory;
use crate::terms::{constant, make};
use kb_frames::{SymState, SymValue};
use kb_names::JType;
use kb_terms::{Op, TermId};

/// Whether the value has the kind of the type.
pub fn is_of_kind(kind: &JType, value: SymValue) -> bool
    ensures { result ≡ is_of_kind kind.now value }
{
    match (kind, value) {
        (JType::Bool | JType::Int, SymValue::Int(_)) => true,
        (JType::Class(_) | JType::Array(_), SymValue::Int(_)) => false,
        (JType::Class(_) | JType::Array(_), _) => true,
        _ => false,
    }
}

/// What a slot, an element or a result of the type keeps of a value: of an int in a boolean the low bit, as a term that is made.
/// None, and nothing is made, where the value is of another kind.
pub fn keep(
    state: &mut SymState,
    kind: &JType,
    value: SymValue,
) -> Result<Option<SymValue>, NoMemory>
    requires { IsTermOf state.old.nodes (Some value) }
    ensures kept { IfOk result (λ it. option_map (λ (v : SymValue). (state.new, v)) it ≡ kept kind.now value state.old) }
    ensures none { IfOk result (λ it. it ≡ None → state.new ≡ state.old) }
{
    if !is_of_kind(kind, value) {
        return Ok(None);
    }
    let value = keep_in(state, kind, value)?;
    Ok(Some(value))
}

// What the type keeps of a value of its kind.
fn keep_in(state: &mut SymState, kind: &JType, value: SymValue) -> Result<SymValue, NoMemory>
    requires { IsTermOf state.old.nodes (Some value) }
    ensures state { OnOk result (state.new ≡ (kept_in kind.now value state.old).0) }
    ensures value { IfOk result (λ v. v ≡ (kept_in kind.now value state.old).1) }
{
    match (kind, value) {
        (JType::Bool, SymValue::Int(term)) => Ok(SymValue::Int(mask(state, term)?)),
        _ => Ok(value),
    }
}

// The term of the low bit of a term.
fn mask(state: &mut SymState, term: TermId) -> Result<TermId, NoMemory>
    requires { IsTerm state.old.nodes term }
    ensures state { OnOk result (state.new ≡ with_nodes state.old (masked state.old term (interned state.old.nodes (Const (pos 1)))).0) }
    ensures term { IfOk result (λ t. t ≡ (masked state.old term (interned state.old.nodes (Const (pos 1)))).1) }
{
    let one = constant(state, 1)?;
    make(state, Op::And, term, Some(one))
}
