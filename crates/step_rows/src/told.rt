//! Alternatives, outcomes and terms, as texts.

use kb_frames::Outcome;
use kb_heap::{Bound, Place};
use kb_names::{ExactType, Spelling, write_name, write_target, write_type};
use kb_picture::{Choice, Length, Out, SymEnding};
use kb_table::{RowResult, append, append_number, kept};
use kb_terms::{Node, Operand, Pool, TermId, VarKind};
use std::alloc::Global;

/// Appends the alternatives of a step, one behind the other, without the end of the line.
pub fn append_choices(alloc: Global, choices: &[Choice], into: &mut Vec<u8>) -> RowResult<()> {
    let mut is_first = true;
    for choice in choices {
        if !is_first {
            append(" | ", into)?;
        }
        is_first = false;
        append_choice(alloc, choice, into)?;
    }
    Ok(())
}

fn append_choice(alloc: Global, choice: &Choice, into: &mut Vec<u8>) -> RowResult<()> {
    match choice {
        Choice::Key(place) => append_number(alloc, "key ", i64::from(*place), into),
        Choice::Alias(number) => append_number(alloc, "o", i64::from(*number), into),
        Choice::Index(place) => append_number(alloc, "index ", i64::from(*place), into),
        Choice::Size(length) => append_number(alloc, "size ", i64::from(*length), into),
        Choice::Fresh(kind, length) => append_fresh(alloc, kind, *length, into),
        other => append(choice_text(other), into),
    }
}

/// The words of an alternative that has no number.
fn choice_text(choice: &Choice) -> &'static str {
    match choice {
        Choice::Only => "only",
        Choice::Branch(true) => "taken",
        Choice::Branch(false) => "not taken",
        Choice::Default => "default",
        Choice::Zero => "zero",
        Choice::NotZero => "not zero",
        Choice::Null => "null",
        Choice::Beyond => "beyond",
        Choice::Outside => "outside",
        Choice::Negative => "negative",
        Choice::TooLarge => "too large",
        _ => "one of locations",
    }
}

/// Appends a new object, with its length where it is an array.
fn append_fresh(
    alloc: Global,
    kind: &ExactType,
    length: Length,
    into: &mut Vec<u8>,
) -> RowResult<()> {
    append("new ", into)?;
    append_exact(kind, into)?;
    match length {
        Length::Plain => Ok(()),
        Length::Is(count) => append_number(alloc, " length ", i64::from(count), into),
        Length::Above(_) => append(" above", into),
    }
}

/// Appends the name of a class, or the descriptor of an array.
pub fn append_exact(kind: &ExactType, into: &mut Vec<u8>) -> RowResult<()> {
    let written = match kind {
        ExactType::Class(name) => write_name(name, into),
        ExactType::Array(component) => {
            append("[", into)?;
            write_type(component, Spelling::Escaped, into)
        }
    };
    kept(written)
}

/// Appends what came of a take, behind the alternatives.
pub fn append_outcome(alloc: Global, outcome: &Outcome, into: &mut Vec<u8>) -> RowResult<()> {
    append(": ", into)?;
    append_what_came(alloc, outcome, into)?;
    append("\n", into)
}

fn append_what_came(alloc: Global, outcome: &Outcome, into: &mut Vec<u8>) -> RowResult<()> {
    match outcome {
        Outcome::Asks => append("asks", into),
        Outcome::Goes => append("goes", into),
        Outcome::Cut(bound) => {
            append("cut ", into)?;
            append(bound_text(*bound), into)
        }
        Outcome::Ends(ending) => append_ending(alloc, ending, into),
    }
}

fn bound_text(bound: Bound) -> &'static str {
    match bound {
        Bound::K => "k",
        Bound::Array => "array",
        Bound::Alloc => "alloc",
        Bound::Loops => "loops",
        Bound::Depth => "depth",
        Bound::Steps => "steps",
    }
}

fn append_ending(alloc: Global, ending: &SymEnding, into: &mut Vec<u8>) -> RowResult<()> {
    match ending {
        SymEnding::Returned(None) => append("returns", into),
        SymEnding::Returned(Some(value)) => {
            append("returns ", into)?;
            append_value(alloc, *value, into)
        }
        SymEnding::Threw(value) => {
            append("throws ", into)?;
            append_value(alloc, *value, into)
        }
        SymEnding::IllTyped(place) => append_place(alloc, place, into),
    }
}

fn append_place(alloc: Global, place: &Place, into: &mut Vec<u8>) -> RowResult<()> {
    append("illtyped ", into)?;
    kept(write_target(&place.method, into))?;
    append_number(alloc, " ", i64::from(place.at), into)
}

fn append_value(alloc: Global, value: Out, into: &mut Vec<u8>) -> RowResult<()> {
    match value {
        Out::Int(Operand::Const(number)) => append_number(alloc, "", i64::from(number), into),
        Out::Int(Operand::Var(number)) => append_number(alloc, "v", i64::from(number), into),
        Out::Int(Operand::Term(number)) => append_number(alloc, "t", i64::from(number), into),
        Out::Null => append("null", into),
        Out::Obj(number) => append_number(alloc, "o", i64::from(number), into),
        Out::Loc(number) => append_number(alloc, "l", i64::from(number), into),
        Out::Literal(number) => append_number(alloc, "s", i64::from(number), into),
        Out::New(number) => append_number(alloc, "n", i64::from(number), into),
    }
}

/// Appends the terms of the pool from that number on, a line each.
pub fn append_nodes(alloc: Global, pool: &Pool, from: usize, into: &mut Vec<u8>) -> RowResult<()> {
    for (number, node) in pool.nodes().iter().enumerate() {
        if from <= number {
            append_node(alloc, number, node, into)?;
        }
    }
    Ok(())
}

fn append_node(alloc: Global, number: usize, node: &Node, into: &mut Vec<u8>) -> RowResult<()> {
    append(format!(in alloc; "  t{number}")?.as_str(), into)?;
    append_made(alloc, node, into)?;
    append("\n", into)
}

fn append_made(alloc: Global, node: &Node, into: &mut Vec<u8>) -> RowResult<()> {
    match node {
        Node::Const(value) => append_number(alloc, " ", i64::from(*value), into),
        Node::Var(variable, kind) => {
            append_number(alloc, " v", i64::from(*variable), into)?;
            append(kind_text(*kind), into)
        }
        Node::Op(op, left, right) => {
            append(" ", into)?;
            append(op.name(), into)?;
            append_number(alloc, " t", i64::from(left.0), into)?;
            append_right(alloc, *right, into)
        }
    }
}

fn kind_text(kind: VarKind) -> &'static str {
    match kind {
        VarKind::Int => "",
        VarKind::Bool => " boolean",
    }
}

/// Appends the second operand, where there is one.
fn append_right(alloc: Global, right: Option<TermId>, into: &mut Vec<u8>) -> RowResult<()> {
    match right {
        Some(right) => append_number(alloc, " t", i64::from(right.0), into),
        None => Ok(()),
    }
}
