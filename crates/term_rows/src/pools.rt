//! Questions about terms: their nodes, values and numbers.
ghost use Rattle.kb_terms.specs.Terms.{AreTerms};

use crate::terms::{Query, known, no_conditions, op_named, read_query};
use kb_rows::Held;
use kb_table::{RowResult, RowStop, kept, read_int, read_number, read_numbers, read_words};
use kb_terms::{Node, Numbering, Op, Pool, TermId, VarKind};
use std::alloc::Global;

/// Appends the nodes of terms, and how many nodes and variables their pool has, and whether its copy has the same.
pub fn append_pool(alloc: Global, text: &str, into: &mut String) -> RowResult<()> {
    let query = query_of(alloc, text)?;
    append_terms(query.get(), into)
}

fn append_terms(query: &Query, into: &mut String) -> RowResult<()> {
    let pool = &query.pool;
    for (term, _) in query.when.as_slice() {
        append_node(pool, *term, into)?;
    }
    let (nodes, variables) = (pool.nodes().len(), pool.variables());
    let copied = is_copied(pool)?;
    Ok(write!(
        into,
        "{nodes} nodes, {variables} variables, copied {copied}"
    )?)
}

/// The terms of a text, behind the kinds of their variables.
fn query_of(alloc: Global, text: &str) -> RowResult<Held<Query>> {
    match text.split_once(' ') {
        Some((kinds, terms)) => read_query(alloc, kinds, terms),
        None => Err(RowStop::Malformed),
    }
}

/// Appends the number and the node of a term.
pub fn append_node(pool: &Pool, term: TermId, into: &mut String) -> RowResult<()> {
    let term = known(pool, term)?;
    append_word("", term.0, into)?;
    into.push_str(" is ")?;
    match pool.is_const(term) {
        Some(value) => write!(into, "{value}")?,
        None => append_made(pool.node(term), into)?,
    }
    Ok(into.push_str(", ")?)
}

fn append_made(node: Node, into: &mut String) -> RowResult<()> {
    match node {
        Node::Const(value) => Ok(write!(into, "constant {value}")?),
        Node::Var(number, VarKind::Int) => append_word("int v", number, into),
        Node::Var(number, VarKind::Bool) => append_word("boolean v", number, into),
        Node::Op(op, left, right) => {
            into.push_str(op.name())?;
            append_word(" ", left.0, into)?;
            append_right(right, into)
        }
    }
}

/// Appends the second operand, where there is one.
fn append_right(right: Option<TermId>, into: &mut String) -> RowResult<()> {
    match right {
        Some(right) => append_word(" ", right.0, into),
        None => Ok(()),
    }
}

fn append_word(front: &str, number: u32, into: &mut String) -> RowResult<()> {
    Ok(write!(into, "{front}{number}")?)
}

/// Whether the copy of a pool has its nodes and variables.
fn is_copied(pool: &Pool) -> RowResult<bool> {
    let copy = kept(pool.copy())?;
    Ok(copy.nodes() == pool.nodes() && copy.variables() == pool.variables())
}

/// Appends the value of an operation on two ints, and how many operands it has.
pub fn append_applied(alloc: Global, text: &str, into: &mut String) -> RowResult<()> {
    let words = read_words(alloc, text, ' ')?;
    let [name, left, right] = words.as_slice() else {
        return Err(RowStop::Malformed);
    };
    let (left, right) = (read_int(left.as_str())?, read_int(right.as_str())?);
    append_value(name.as_str(), left, right, into)
}

fn append_value(name: &str, left: i32, right: i32, into: &mut String) -> RowResult<()> {
    let Some(op) = op_named(name) else {
        return Err(RowStop::Malformed);
    };
    let value = op.apply(left, right);
    let operands = if op.is_binary() { 2 } else { 1 };
    Ok(write!(into, "{value}, operands {operands}")?)
}

/// Appends the value and the number of a sum with so many plus signs, all of whose terms are one variable of that value.
pub fn append_chain(alloc: Global, text: &str, into: &mut String) -> RowResult<()> {
    let Some((count, value)) = text.split_once(' ') else {
        return Err(RowStop::Malformed);
    };
    let (count, value) = (read_number(count)?, read_int(value)?);
    let mut query = no_conditions(alloc)?;
    append_sum(alloc, &mut query.get_mut().pool, count, value, into)
}

fn append_sum(
    alloc: Global,
    pool: &mut Pool,
    count: u32,
    value: i32,
    into: &mut String,
) -> RowResult<()> {
    let variable = kept(pool.variable(VarKind::Int))?;
    let sum = summed(pool, variable, count)?;
    append_sum_of(alloc, pool, sum, value, into)
}

fn summed(pool: &mut Pool, variable: TermId, count: u32) -> RowResult<TermId> {
    let mut sum = variable;
    for _ in 0..count {
        let left = known(pool, sum)?;
        let right = known(pool, variable)?;
        sum = kept(pool.make(Op::Add, left, Some(right)))?;
    }
    Ok(sum)
}

fn append_sum_of(
    alloc: Global,
    pool: &Pool,
    sum: TermId,
    value: i32,
    into: &mut String,
) -> RowResult<()> {
    let sum = known(pool, sum)?;
    if pool.variables() != 1 {
        return Err(RowStop::Malformed);
    }
    let value = kept(pool.eval(alloc, sum, &[value]))?;
    write!(into, "{value}, number ")?;
    let numbering = numbered(alloc, pool, &[sum])?;
    append_number(numbering.get(), sum, into)
}

/// The numbers of the terms at and below some.
fn numbered(alloc: Global, pool: &Pool, roots: &[TermId]) -> RowResult<Held<Numbering>>
    requires { AreTerms pool.now roots.now }
{
    let numbering = kept(pool.numbering(alloc, roots))?;
    Ok(Held::new(alloc, numbering)?)
}

/// Appends the terms with numbers at and below four terms, in the order of their numbers, and the numbers of the terms behind
/// `of`.
pub fn append_numbers(alloc: Global, text: &str, into: &mut String) -> RowResult<()> {
    let Some((terms, asked)) = text.split_once(" of ") else {
        return Err(RowStop::Malformed);
    };
    let numbering = numbering_of(alloc, terms)?;
    append_numbered(numbering.get(), into)?;
    append_numbers_asked(alloc, numbering.get(), asked, into)
}

fn append_numbered(numbering: &Numbering, into: &mut String) -> RowResult<()> {
    for term in numbering.terms() {
        let term = term.0;
        write!(into, "{term} ")?;
    }
    Ok(into.push_str("with numbers")?)
}

fn append_numbers_asked(
    alloc: Global,
    numbering: &Numbering,
    asked: &str,
    into: &mut String,
) -> RowResult<()> {
    for term in read_numbers(alloc, asked, ' ')?.as_slice() {
        write!(into, ", {term} has ")?;
        append_number(numbering, TermId(*term), into)?;
    }
    Ok(())
}

fn numbering_of(alloc: Global, terms: &str) -> RowResult<Held<Numbering>> {
    let query = query_of(alloc, terms)?;
    numbering_in(alloc, query.get())
}

fn numbering_in(alloc: Global, query: &Query) -> RowResult<Held<Numbering>> {
    let [first, second, third, fourth] = query.when.as_slice() else {
        return Err(RowStop::Malformed);
    };
    let pool = &query.pool;
    let first = known(pool, first.0)?;
    let second = known(pool, second.0)?;
    let third = known(pool, third.0)?;
    let fourth = known(pool, fourth.0)?;
    numbered(alloc, pool, &[first, second, third, fourth])
}

fn append_number(numbering: &Numbering, term: TermId, into: &mut String) -> RowResult<()> {
    match numbering.number_of(term) {
        Some(number) => Ok(write!(into, "{number}")?),
        None => Ok(into.push_str("none")?),
    }
}
