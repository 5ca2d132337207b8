//! Conditions from their texts.
ghost use Rattle.std.specs.Prelude.{IfOk};
ghost use Rattle.kb_terms.specs.Terms.{IsTerm};

use kb_rows::Held;
use kb_table::{RowResult, RowStop, kept, read_int, read_number};
use kb_terms::{Node, Op, Pool, TermId, VarKind};
use std::alloc::Global;

/// Conditions on terms of a pool.
#[derive(Drop)]
pub struct Query {
    pub pool: Pool,
    pub when: Vec<(TermId, bool)>,
}

const OPS: [Op; 18] = [
    Op::Add,
    Op::Sub,
    Op::Mul,
    Op::Div,
    Op::Rem,
    Op::Neg,
    Op::Shl,
    Op::Shr,
    Op::Ushr,
    Op::And,
    Op::Or,
    Op::Xor,
    Op::Byte,
    Op::Char,
    Op::Short,
    Op::Eq,
    Op::Lt,
    Op::Ult,
];

/// The operation of that name.
pub fn op_named(name: &str) -> Option<Op> {
    OPS.iter().find(|op| op.name() == name).copied()
}

/// The conditions of a text, over variables of these kinds, `i` for an int and `z` for a boolean, with `, ` between two: `+`
/// for one that holds, `-` for one that does not, and `.` for a term that is only made, and then the term in prefix form.
pub fn read_query(alloc: Global, kinds: &str, text: &str) -> RowResult<Held<Query>> {
    let mut query = no_conditions(alloc)?;
    add_pieces(alloc, query.get_mut(), kinds, text)?;
    Ok(query)
}

pub fn no_conditions(alloc: Global) -> RowResult<Held<Query>> {
    let query = Query {
        pool: Pool::new(alloc),
        when: Vec::new(alloc),
    };
    Ok(Held::new(alloc, query)?)
}

/// Adds the conditions of a text, over variables of these kinds, of which those that the pool has are not made anew.
pub fn add_pieces(alloc: Global, query: &mut Query, kinds: &str, text: &str) -> RowResult<()> {
    let variables = variables_of(alloc, &mut query.pool, kinds)?;
    for piece in text.split(", ") {
        add_piece(alloc, query, variables.as_slice(), piece)?;
    }
    Ok(())
}

fn variables_of(alloc: Global, pool: &mut Pool, kinds: &str) -> RowResult<Vec<TermId>> {
    let mut variables = variables_in(alloc, pool)?;
    for kind in kinds.bytes().skip(variables.len()) {
        let kind = match kind {
            b'i' => VarKind::Int,
            b'z' => VarKind::Bool,
            _ => return Err(RowStop::Malformed),
        };
        variables.push(kept(pool.variable(kind))?)?;
    }
    Ok(variables)
}

/// The terms that are variables.
fn variables_in(alloc: Global, pool: &Pool) -> RowResult<Vec<TermId>> {
    let mut variables = Vec::new(alloc);
    for number in 0..pool.terms() {
        if let Node::Var(..) = pool.node(TermId(number)) {
            variables.push(TermId(number))?;
        }
    }
    Ok(variables)
}

fn add_piece(alloc: Global, query: &mut Query, variables: &[TermId], piece: &str) -> RowResult<()> {
    if let Some(text) = piece.strip_prefix(".") {
        read_term(alloc, &mut query.pool, variables, text)?;
        return Ok(());
    }
    let (text, holds) = signed(piece)?;
    let term = read_term(alloc, &mut query.pool, variables, text)?;
    Ok(query.when.push((term, holds))?)
}

/// The text of a condition, and whether it holds.
fn signed(piece: &str) -> RowResult<(&str, bool)> {
    if let Some(text) = piece.strip_prefix("+") {
        return Ok((text, true));
    }
    match piece.strip_prefix("-") {
        Some(text) => Ok((text, false)),
        None => Err(RowStop::Malformed),
    }
}

/// The term of a text in prefix form, which is read from its end: each operation finds its operands on the stack.
fn read_term(
    alloc: Global,
    pool: &mut Pool,
    variables: &[TermId],
    text: &str,
) -> RowResult<TermId> {
    let mut stack = Vec::new(alloc);
    for word in text.rsplit(' ') {
        let term = term_of(pool, variables, word, &mut stack)?;
        stack.push(term)?;
    }
    match stack.as_slice() {
        [term] => Ok(*term),
        _ => Err(RowStop::Malformed),
    }
}

/// The term of a word: of an operation on the last terms of the stack, of a variable, or of a constant.
fn term_of(
    pool: &mut Pool,
    variables: &[TermId],
    word: &str,
    stack: &mut Vec<TermId>,
) -> RowResult<TermId> {
    if let Some(op) = op_named(word) {
        return applied(pool, op, stack);
    }
    match word.strip_prefix("v") {
        Some(number) => match variables.get(read_number(number)? as usize) {
            Some(variable) => Ok(*variable),
            None => Err(RowStop::Malformed),
        },
        None => kept(pool.constant(read_int(word)?)),
    }
}

/// The term of an operation on the last terms of the stack.
fn applied(pool: &mut Pool, op: Op, stack: &mut Vec<TermId>) -> RowResult<TermId> {
    let left = popped(pool, stack)?;
    if op.is_binary() {
        let right = popped(pool, stack)?;
        return kept(pool.make(op, left, Some(right)));
    }
    kept(pool.make(op, left, None))
}

/// The last term of the stack.
fn popped(pool: &Pool, stack: &mut Vec<TermId>) -> RowResult<TermId>
    ensures { IfOk result (IsTerm pool.now) }
{
    match stack.pop() {
        Some(term) => known(pool, term),
        None => Err(RowStop::Malformed),
    }
}

/// The term, if the pool has it.
pub fn known(pool: &Pool, term: TermId) -> RowResult<TermId>
    ensures { IfOk result (IsTerm pool.now) }
{
    if (term.0 as usize) < pool.nodes().len() {
        return Ok(term);
    }
    Err(RowStop::Malformed)
}
