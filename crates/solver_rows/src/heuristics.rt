//! Questions about what the search is free to do: which variable it tries, and which clauses it lets go.
ghost use Rattle.std.specs.Prelude.{◌≡◌, ◌<◌, ◌≤◌, ◌+◌, ◌*◌, false, IfOk};
ghost use Rattle.kb_chain.specs.Literal.{has, negated, place_of};
ghost use Rattle.kb_chain.specs.Propagation.{all_negated};

use crate::formulas::read_chain;
use kb_chain::Lit;
use kb_heuristics::{ActivityOrder, Crowding, Ranks, levels_of};
use kb_propagate::Trail;
use kb_table::{RowResult, RowStop, kept, read_int, read_number, read_numbers};
use std::alloc::Global;

/// Appends which variables come out of an order: how many it has, and then what is done with it, as `bump2`, `put2`, `decay` and
/// `pop`, with `, ` between two pieces; a piece may begin with a number of times.
pub fn append_order(alloc: Global, text: &str, into: &mut String) -> RowResult<()> {
    let Some((variables, pieces)) = text.split_once(' ') else {
        return Err(RowStop::Malformed);
    };
    let variables = read_number(variables)?;
    let mut order = kept(ActivityOrder::new(alloc, variables, &[]))?;
    take_pieces(&mut order, pieces, into)
}

fn take_pieces(order: &mut ActivityOrder, pieces: &str, into: &mut String) -> RowResult<()> {
    for piece in pieces.split(", ") {
        take_piece(order, piece, into)?;
    }
    Ok(())
}

fn take_piece(order: &mut ActivityOrder, piece: &str, into: &mut String) -> RowResult<()> {
    let Some((times, steps)) = piece.split_once(" times ") else {
        return take_steps(order, piece, into);
    };
    for _ in 0..read_number(times)? {
        take_steps(order, steps, into)?;
    }
    Ok(())
}

fn take_steps(order: &mut ActivityOrder, steps: &str, into: &mut String) -> RowResult<()> {
    for step in steps.split(' ') {
        take_step(order, step, into)?;
    }
    Ok(())
}

fn take_step(order: &mut ActivityOrder, step: &str, into: &mut String) -> RowResult<()> {
    match step {
        "decay" => {
            order.decay();
            Ok(())
        }
        "pop" => append_popped(order, into),
        _ => change(order, step),
    }
}

fn change(order: &mut ActivityOrder, step: &str) -> RowResult<()> {
    if let Some(variable) = step.strip_prefix("bump") {
        order.bump(variable_of(order, variable)?);
        return Ok(());
    }
    let Some(variable) = step.strip_prefix("put") else {
        return Err(RowStop::Malformed);
    };
    let variable = variable_of(order, variable)?;
    kept(order.insert(variable))
}

fn append_popped(order: &mut ActivityOrder, into: &mut String) -> RowResult<()> {
    match order.pop() {
        Some(variable) => Ok(write!(into, "{variable} ")?),
        None => Ok(into.push_str("none ")?),
    }
}

/// A variable of an order.
fn variable_of(order: &ActivityOrder, word: &str) -> RowResult<u32>
    ensures above { IfOk result (λ variable. 0 < variable) }
    ensures below { IfOk result (λ variable. variable ≤ order.now) }
{
    let variable = read_number(word)?;
    if variable == 0 || variable > order.vars() {
        return Err(RowStop::Malformed);
    }
    Ok(variable)
}

/// More learned clauses than there are up to a time at which some are let go.
const MANY_CLAUSES: u32 = 100_000;

/// Appends after how many learned clauses some are let go, so many times.
pub fn append_intervals(times: &str, into: &mut String) -> RowResult<()> {
    let mut crowding = Crowding::new();
    for _ in 0..read_number(times)? {
        let interval = next_interval(&mut crowding);
        write!(into, "{interval} ")?;
    }
    Ok(())
}

fn next_interval(crowding: &mut Crowding) -> u32 {
    for count in 1..MANY_CLAUSES {
        if crowding.is_due() {
            return count;
        }
    }
    MANY_CLAUSES
}

/// Appends on how many levels learned clauses stood, and whether they were used: the clauses and their levels, as `4:3`, none of
/// which counts as used; then a chain; and then the clauses that are asked about.
pub fn append_ranks(alloc: Global, text: &str, into: &mut String) -> RowResult<()> {
    let Some((learned, others)) = text.split_once(", ") else {
        return Err(RowStop::Malformed);
    };
    let Some((chain, asked)) = others.split_once(", ") else {
        return Err(RowStop::Malformed);
    };
    let chain = read_chain(alloc, chain)?;
    let mut ranks = Ranks::new(alloc);
    set_ranks(&mut ranks, learned)?;
    ranks.clear_uses();
    ranks.note(&chain);
    append_ranks_of(alloc, &ranks, asked, into)
}

fn set_ranks(ranks: &mut Ranks, text: &str) -> RowResult<()> {
    for word in text.split(' ') {
        let Some((number, levels)) = word.split_once(':') else {
            return Err(RowStop::Malformed);
        };
        kept(ranks.set(read_number(number)?, read_number(levels)?))?;
    }
    Ok(())
}

fn append_ranks_of(alloc: Global, ranks: &Ranks, asked: &str, into: &mut String) -> RowResult<()> {
    for number in read_numbers(alloc, asked, ' ')?.as_slice() {
        append_rank(ranks, *number, into)?;
    }
    Ok(())
}

fn append_rank(ranks: &Ranks, number: u32, into: &mut String) -> RowResult<()> {
    let Some(rank) = ranks.ranks.get(number as usize) else {
        return Ok(into.push_str("none ")?);
    };
    let (levels, used) = (rank.levels, rank.used);
    Ok(write!(into, "{levels} {used} ")?)
}

/// Appends on how many levels the literals of a clause stand: how many variables there are, and the literals that become true,
/// those that begin a level with `d` in front; and then, behind `of`, the literals of the clause.
pub fn append_levels(alloc: Global, text: &str, into: &mut String) -> RowResult<()> {
    let Some((trail, clause)) = text.split_once(" of ") else {
        return Err(RowStop::Malformed);
    };
    let Some((variables, words)) = trail.split_once(' ') else {
        return Err(RowStop::Malformed);
    };
    let variables = read_number(variables)?;
    let mut trail = kept(Trail::new(alloc, variables))?;
    append_levels_on(alloc, &mut trail, words, clause, into)
}

fn append_levels_on(
    alloc: Global,
    trail: &mut Trail,
    words: &str,
    clause: &str,
    into: &mut String,
) -> RowResult<()> {
    take_literals(trail, words)?;
    let literals = read_literals(alloc, clause)?;
    let levels = levels_behind(trail, literals.as_slice())?;
    Ok(write!(into, "{levels}")?)
}

fn read_literals(alloc: Global, text: &str) -> RowResult<Vec<Lit>> {
    let mut literals = Vec::new(alloc);
    for word in text.split(' ') {
        literals.push(read_literal(word)?)?;
    }
    Ok(literals)
}

fn take_literals(trail: &mut Trail, words: &str) -> RowResult<()> {
    for word in words.split(' ') {
        take_literal(trail, word)?;
    }
    Ok(())
}

fn take_literal(trail: &mut Trail, word: &str) -> RowResult<()> {
    if let Some(number) = word.strip_prefix("d") {
        let literal = free_literal(trail, number)?;
        return kept(trail.decide(literal));
    }
    let literal = free_literal(trail, word)?;
    trail.assign(literal, 0);
    Ok(())
}

/// A literal whose variable has a place and no value.
fn free_literal(trail: &Trail, word: &str) -> RowResult<Lit>
    ensures place { IfOk result (λ literal. place_of literal < 2 * trail.now.vars + 2) }
    ensures unassigned { IfOk result (λ literal. has trail.now.literals literal ≡ false) }
    ensures possible { IfOk result (λ literal. has trail.now.literals (negated literal) ≡ false) }
{
    let literal = read_literal(word)?;
    if literal.place() >= 2 * trail.vars() as usize + 2 {
        return Err(RowStop::Malformed);
    }
    if trail.is_true(literal) {
        return Err(RowStop::Malformed);
    }
    if trail.is_false(literal) {
        return Err(RowStop::Malformed);
    }
    Ok(literal)
}

fn read_literal(word: &str) -> RowResult<Lit> {
    match Lit::from_number(read_int(word)?) {
        Some(literal) => Ok(literal),
        None => Err(RowStop::Malformed),
    }
}

/// On how many levels literals stand, if all are false.
fn levels_behind(trail: &Trail, literals: &[Lit]) -> RowResult<u32> {
    let known = are_false(trail, literals);
    if !known {
        return Err(RowStop::Malformed);
    }
    Ok(levels_of(trail, literals))
}

fn are_false(trail: &Trail, literals: &[Lit]) -> bool
    ensures { result ≡ all_negated (has trail.now.literals) literals.now }
{
    literals.iter().all(|literal| trail.is_false(*literal))
}
