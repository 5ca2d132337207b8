//! Model reconstruction: values of the eliminated variables (Eén and Biere, 2005). Under proof: each clause is made true
//! in its turn. That it stays true is checked, before the model is answered.
ghost use Rattle.std.specs.Prelude.{◌≡◌, ◌≤◌, true, List, length, slice_get, Some, IfOk, IfSome};
ghost use Rattle.std.specs.Bool.{OnTrue};
ghost use Rattle.kb_chain.specs.Literal.{Literal, has, is_true};
ghost use Rattle.kb_chain.specs.Clause.{Satisfies, assignment_of, clause_true};
ghost use Rattle.kb_propagate.specs.Rows.{rows_of};
ghost use Rattle.kb_propagate.specs.Base.{Stands};

use crate::elimination::Eliminated;
use kb_chain::{Clause, Lit, Row};
use kb_propagate::{Base, Clauses, NoMemory, model};
use std::alloc::Global;

/// The model that the trail is, with values of the eliminated variables that make the clauses true that were let go; none where
/// it is no model after all.
pub fn restored(
    alloc: Global,
    base: &Base<'_>,
    eliminated: &Eliminated,
) -> Result<Option<Row<bool>>, NoMemory>
    requires { Stands base.now }
    ensures length { IfOk result (λ found. IfSome found (λ bits. length bits ≡ base.now.formula.now.vars)) }
    ensures satisfies { IfOk result (λ found. IfSome found (λ bits. Satisfies (assignment_of bits) base.now.formula.now.clauses)) }
{
    let mut bits = model(alloc, &base.trail)?.into_vec();
    restore_all(bits.as_mut_slice(), &base.clauses, eliminated);
    if !satisfies(bits.as_slice(), base.formula.clauses()) {
        return Ok(None);
    }
    Ok(Some(Row::from_vec(bits)))
}

/// Makes the clauses true that were let go, from the last on: those that came later have none of the variables that
/// were eliminated before, so that they stay true.
fn restore_all(bits: &mut [bool], clauses: &Clauses, eliminated: &Eliminated) {
    for (literal, number) in eliminated.clauses.as_slice().iter().rev() {
        restore(bits, clauses, *literal, *number);
    }
}

/// Makes a literal of the clause of a number true, unless another one is.
fn restore(bits: &mut [bool], clauses: &Clauses, literal: Lit, number: u32)
    ensures { (row : List Literal) → slice_get (rows_of clauses.now) number ≡ Some row → has row literal ≡ true → literal.variable ≤ length bits.old
        → clause_true (assignment_of bits.new) row ≡ true }
{
    if number >= clauses.len() {
        return;
    }
    if satisfies_clause(bits, clauses.literals(number)) {
        return;
    }
    make_true(bits, literal);
}

/// Makes a literal true, if its variable is one of those.
fn make_true(bits: &mut [bool], literal: Lit)
    ensures { literal.variable ≤ length bits.old → is_true (assignment_of bits.new) literal ≡ true }
{
    let place = literal.variable() as usize - 1;
    if place >= bits.len() {
        return;
    }
    bits[place] = literal.is_positive();
}

fn satisfies(bits: &[bool], clauses: &[Clause]) -> bool
    ensures { OnTrue result (Satisfies (assignment_of bits.now) clauses.now) }
{
    for clause in clauses {
        if !satisfies_clause(bits, clause.literals()) {
            return false;
        }
    }
    true
}

fn satisfies_clause(bits: &[bool], literals: &[Lit]) -> bool
    ensures { result ≡ clause_true (assignment_of bits.now) literals.now }
{
    literals
        .iter()
        .any(|literal| satisfies_literal(bits, *literal))
}

fn satisfies_literal(bits: &[bool], literal: Lit) -> bool
    ensures { result ≡ is_true (assignment_of bits.now) literal }
{
    let place = literal.variable() as usize - 1;
    let value = bits.get(place).copied().unwrap_or(false);
    if literal.is_positive() { value } else { !value }
}
