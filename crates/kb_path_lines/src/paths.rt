//! The lines of a path, but for those of its picture and of its leaf.

use crate::leaves::{add_to_leaf, at_once};
use crate::pictures::add_to_picture;
use crate::texts::{push, split};
use crate::words::{numbered, read_op, read_operand};
use kb_picture::{Operand, Path, Picture, Term};
use kb_rows::Row;
use kb_table::{RowResult, RowStop};
use std::alloc::Global;

/// The path of these decisions that sees nothing and returns at once.
pub fn path_of(alloc: Global, decisions: Row<u32>) -> Path {
    Path {
        decisions,
        picture: Picture::new(alloc),
        terms: Row::new(alloc),
        when: Row::new(alloc),
        leaf: at_once(alloc),
    }
}

/// A line of the picture, a term, a condition, or what the path says of the end.
pub fn add_to_path(alloc: Global, word: &str, rest: &str, path: &mut Path) -> RowResult<()> {
    match word.as_bytes() {
        b"see" | b"loc" | b"obj" => add_to_picture(alloc, word, rest, &mut path.picture),
        b"let" => push(read_term(rest), &mut path.terms),
        b"when" => push(read_condition(rest), &mut path.when),
        _ => add_to_leaf(alloc, word, rest, &mut path.leaf),
    }
}

/// As in `t0 lt v0 0`.
fn read_term(text: &str) -> RowResult<Term> {
    let (_, text) = split(text);
    let (op, operands) = split(text);
    let (left, right) = split(operands);
    Ok(Term {
        op: read_op(op)?,
        left: read_operand(left)?,
        right: read_second(right)?,
    })
}

/// The second operand, where the operation has two.
fn read_second(word: &str) -> RowResult<Option<Operand>> {
    if word.is_empty() {
        return Ok(None);
    }
    Ok(Some(read_operand(word)?))
}

/// As in `t0` or `not t0`.
fn read_condition(text: &str) -> RowResult<(u32, bool)> {
    let (word, truth) = match text.strip_prefix("not ") {
        Some(word) => (word, false),
        None => (text, true),
    };
    match numbered(word, "t") {
        Some(term) => Ok((term, truth)),
        None => Err(RowStop::Malformed),
    }
}
