//! The values of a path's variables and terms for an input.
ghost use Rattle.std.specs.Prelude.{◌≡◌, ◌↔◌, IfOk, IsTrue};
ghost use Rattle.kb_arith.specs.Word.{truth as truth_value};
ghost use Rattle.kb_blast.specs.Meaning.{operand_value, second_value, term_value, listed_values, AreMet};
ghost use Rattle.kb_terms.specs.Terms.{int_at};
ghost use Rattle.kb_picture.specs.Instances.{variable_value, variable_values};

use crate::NoMemory;
use crate::picture::{Origin, Picture, Seen};
use crate::placing::slot_value;
use kb_heap::{Input, Value};
use kb_rows::Row;
use kb_terms::{Operand, Term};
use std::alloc::Global;

/// The values of the variables in the order of reading, where the objects of the picture lie at these places: each is the int
/// that its slot holds in the first heap.
#[tactic(auto, unfolding(crate::specs::Instances::variable_values))]
pub(crate) fn variable_values(
    alloc: Global,
    picture: &Picture,
    input: &Input,
    places: &[u32],
) -> Result<Row<i32>, NoMemory>
    ensures { IfOk result (λ values. values ≡ variable_values picture.now input.now places.now) }
{
    let mut values = Row::new(alloc);
    let mut rest = picture.seen.as_slice();
    while let [(slot, seen), others @ ..] = rest {
        if let Some(value) = variable_value(slot_value(input, places, *slot), *seen) {
            values.push(value)?;
        }
        rest = others;
    }
    Ok(values)
}

// The int that a slot holds, where it is seen as a variable; 0 where it holds none.
fn variable_value(value: Option<Value>, seen: Seen) -> Option<i32>
    ensures { result ≡ variable_value value seen }
{
    let Seen::Int(_) = seen else {
        return None;
    };
    match value {
        Some(Value::Int(int)) => Some(int),
        _ => Some(0),
    }
}

/// The values of the terms in order, each computed once, from those before it.
pub(crate) fn term_values(
    alloc: Global,
    variables: &[i32],
    terms: &[Term],
) -> Result<Row<i32>, NoMemory>
    ensures { IfOk result (λ values. values ≡ listed_values variables.now terms.now) }
{
    let mut values = Row::new(alloc);
    let mut rest = terms;
    while let [term, others @ ..] = rest {
        values.push(term_value(variables, values.as_slice(), *term))?;
        rest = others;
    }
    Ok(values)
}

fn term_value(variables: &[i32], done: &[i32], term: Term) -> i32
    ensures { result ≡ term_value variables.now done.now term }
{
    let left = operand_value(variables, done, term.left);
    let right = second_value(variables, done, term.right);
    term.op.apply(left, right)
}

fn second_value(variables: &[i32], done: &[i32], operand: Option<Operand>) -> i32
    ensures { result ≡ second_value variables.now done.now operand }
{
    match operand {
        Some(operand) => operand_value(variables, done, operand),
        None => 0,
    }
}

/// The value of an operand, where `done` are those of the terms.
pub(crate) fn operand_value(variables: &[i32], done: &[i32], operand: Operand) -> i32
    ensures { result ≡ operand_value variables.now done.now operand }
{
    match operand {
        Operand::Const(value) => value,
        Operand::Var(number) => int_at(variables, number),
        Operand::Term(number) => int_at(done, number),
    }
}

// The int of that number; 0 where there is none.
fn int_at(ints: &[i32], number: u32) -> i32
    ensures { result ≡ int_at ints.now number }
{
    match ints.get(number as usize) {
        Some(int) => *int,
        None => 0,
    }
}

/// Whether each condition's term has the stated truth.
pub(crate) fn are_met(values: &[i32], when: &[(u32, bool)]) -> bool
    ensures { IsTrue result ↔ AreMet values.now when.now }
{
    let mut rest = when;
    while let [(term, truth), others @ ..] = rest {
        if int_at(values, *term) != truth_value(*truth) {
            return false;
        }
        rest = others;
    }
    true
}

fn truth_value(truth: bool) -> i32
    ensures { result ≡ truth_value truth }
{
    if truth { 1 } else { 0 }
}
