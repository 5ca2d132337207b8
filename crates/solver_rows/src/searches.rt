//! Questions about formulas.
ghost use Rattle.std.specs.Prelude.{◌≡◌, ◌<◌, []};
ghost use Rattle.kb_propagate.specs.Base.{IsReady, Stands};

use crate::assignments::judged_bits;
use crate::formulas::read_log;
use crate::log_lines::{append_lines, log_text};
use kb_chain::{
    Chain, Clause, Formula, Log, ResolveStop, Row, Store, Verdict, check_fresh, check_refutation,
    derive_needed, resolve,
};
use kb_eliminate::{Eliminated, EliminationBounds, eliminate, restored};
use kb_log_cut::cut;
use kb_propagate::Base;
use kb_questions::{
    Outcome, append_clause, append_place, judged_open, judged_refutation, read_budget,
};
use kb_sat::{Counts, Solved, solve_counted};
use kb_table::{RowResult, RowStop, kept, read_number, read_numbers};
use std::alloc::Global;

/// Appends what is asked of what the solver makes of a formula: a budget, and behind it what the question needs besides.
pub fn append_search(
    alloc: Global,
    formula: &Formula,
    question: &str,
    words: &str,
    into: &mut String,
) -> RowResult<()> {
    let (budget, others) = match words.split_once(' ') {
        Some(parts) => parts,
        None => (words, ""),
    };
    let budget = read_budget(budget)?;
    let (solved, counts) = kept(solve_counted(alloc, formula, budget))?;
    append_of_search(alloc, formula, question, &solved, counts, others, into)
}

fn append_of_search(
    alloc: Global,
    formula: &Formula,
    question: &str,
    solved: &Solved,
    counts: Counts,
    words: &str,
    into: &mut String,
) -> RowResult<()> {
    match question {
        "solve" => outcome_of(alloc, formula, solved)?.append_to(into),
        "counts" => append_counts(counts, into),
        "restarts" => append_restarts(counts, into),
        "exceeds" => append_exceeds(solved, counts, words, into),
        "eliminates" => append_eliminates(solved, counts, into),
        "entries" => append_entries(solved, into),
        "front" => append_front(alloc, formula, solved, into),
        _ => Err(RowStop::Malformed),
    }
}

/// What the solver comes to.
fn outcome_of(alloc: Global, formula: &Formula, solved: &Solved) -> RowResult<Outcome> {
    match solved {
        Solved::Sat(bits) => Ok(judged_bits(formula, bits.as_slice())),
        Solved::Unsat(log) => judged_refutation(alloc, formula, log),
        Solved::Undecided(log) => judged_open(alloc, formula, log),
    }
}

/// Appends how many literals were tried and set, and how many conflicts and restarts there were.
fn append_counts(counts: Counts, into: &mut String) -> RowResult<()> {
    let Counts {
        decisions,
        propagations,
        conflicts,
        restarts,
    } = counts;
    Ok(write!(into, "{decisions} {propagations} {conflicts} {restarts}")?)
}

/// Appends how many conflicts and restarts there were.
fn append_restarts(counts: Counts, into: &mut String) -> RowResult<()> {
    let (conflicts, restarts) = (counts.conflicts, counts.restarts);
    Ok(write!(into, "{conflicts} {restarts}")?)
}

/// Appends what the solver says, unchecked, and whether there were more conflicts than the number says.
fn append_exceeds(
    solved: &Solved,
    counts: Counts,
    least: &str,
    into: &mut String,
) -> RowResult<()> {
    let said = match solved {
        Solved::Sat(_) => "model",
        Solved::Unsat(_) => "refuted",
        Solved::Undecided(_) => "open",
    };
    let more = counts.conflicts > u64::from(read_number(least)?);
    Ok(write!(into, "{said} {more}")?)
}

/// Appends whether the refutation has more entries than there were conflicts. Each conflict gives at most one entry; the others
/// are resolvents by which the first search eliminated variables. Were it the second one that refutes, the conflicts of both would
/// count.
fn append_eliminates(solved: &Solved, counts: Counts, into: &mut String) -> RowResult<()> {
    let more = match solved {
        Solved::Unsat(log) => log.entries.as_slice().len() as u64 > counts.conflicts,
        Solved::Sat(_) | Solved::Undecided(_) => false,
    };
    Ok(write!(into, "{more}")?)
}

/// Appends how many entries the refutation has.
fn append_entries(solved: &Solved, into: &mut String) -> RowResult<()> {
    let Solved::Unsat(log) = solved else {
        return Err(RowStop::Malformed);
    };
    let entries = log.entries.as_slice().len();
    Ok(write!(into, "{entries}")?)
}

/// Appends whether the entries of the refutation before the last one are fresh.
fn append_front(
    alloc: Global,
    formula: &Formula,
    solved: &Solved,
    into: &mut String,
) -> RowResult<()> {
    let Solved::Unsat(log) = solved else {
        return Err(RowStop::Malformed);
    };
    let front = front_of(log)?;
    append_freshness(alloc, formula, &front, into)
}

fn front_of(log: &Log) -> RowResult<Log> {
    let mut entries = log.entries.clone()?.into_vec();
    entries.pop();
    Ok(Log {
        entries: Row::from_vec(entries),
    })
}

/// Appends what is said of a log as a refutation.
pub fn append_refutation(
    alloc: Global,
    formula: &Formula,
    text: &str,
    into: &mut String,
) -> RowResult<()> {
    let log = read_log(alloc, text)?;
    append_verdict(kept(check_refutation(alloc, formula, &log))?, into)
}

/// Appends what is said of a log as a fresh one.
pub fn append_fresh(
    alloc: Global,
    formula: &Formula,
    text: &str,
    into: &mut String,
) -> RowResult<()> {
    let log = read_log(alloc, text)?;
    append_freshness(alloc, formula, &log, into)
}

fn append_freshness(
    alloc: Global,
    formula: &Formula,
    log: &Log,
    into: &mut String,
) -> RowResult<()> {
    append_verdict(kept(check_fresh(alloc, formula, log))?, into)
}

fn append_verdict(verdict: Verdict, into: &mut String) -> RowResult<()> {
    match verdict {
        Verdict::Good => Ok(into.push_str("good")?),
        Verdict::Bad(entry) => Ok(write!(into, "bad {entry}")?),
    }
}

/// Appends the lines of what the last entry of a log needs of it.
pub fn append_cut(
    alloc: Global,
    formula: &Formula,
    text: &str,
    into: &mut String,
) -> RowResult<()> {
    let log = read_log(alloc, text)?;
    let left = kept(cut(alloc, formula, log.entries.as_slice()))?;
    append_lines(log_text(alloc, b"", &left)?.as_str(), into)
}

/// Appends the resolvent of the clauses at the first two numbers, with the third one as the pivot.
pub fn append_resolvent(
    alloc: Global,
    formula: &Formula,
    text: &str,
    into: &mut String,
) -> RowResult<()> {
    let numbers = read_numbers(alloc, text, ' ')?;
    let [left, right, pivot] = numbers.as_slice() else {
        return Err(RowStop::Malformed);
    };
    let clauses = formula.clauses();
    let (Some(left), Some(right)) = (clauses.get(*left as usize), clauses.get(*right as usize))
    else {
        return Err(RowStop::Malformed);
    };
    append_resolved(resolve(alloc, left, right, *pivot), into)
}

fn append_resolved(resolved: Result<Clause, ResolveStop>, into: &mut String) -> RowResult<()> {
    match &resolved {
        Ok(clause) => append_clause(clause, into),
        Err(ResolveStop::NoPivot) => Ok(into.push_str("no pivot")?),
        Err(ResolveStop::NoMemory) => Ok(into.push_str("no memory")?),
    }
}

/// Appends the clauses of a log that those of the numbers need, at all places behind the formula's own clauses.
pub fn append_needed(
    alloc: Global,
    formula: &Formula,
    text: &str,
    into: &mut String,
) -> RowResult<()> {
    let Some((numbers, log)) = text.split_once(" of ") else {
        return Err(RowStop::Malformed);
    };
    let numbers = read_numbers(alloc, numbers, ' ')?;
    let log = read_log(alloc, log)?;
    append_derived(
        alloc,
        formula,
        log.entries.as_slice(),
        numbers.as_slice(),
        into,
    )
}

fn append_derived(
    alloc: Global,
    formula: &Formula,
    entries: &[Chain],
    numbers: &[u32],
    into: &mut String,
) -> RowResult<()> {
    match kept(derive_needed(alloc, formula, entries, numbers))? {
        Some(store) => append_stored(&store, formula.clauses().len(), entries.len(), into),
        None => Ok(into.push_str("not derived")?),
    }
}

/// Appends the clauses at so many places of a store, from the first one on.
fn append_stored(
    store: &Store<'_>,
    first: usize,
    count: usize,
    into: &mut String,
) -> RowResult<()> {
    for entry in 0..count {
        let number = kept(u32::try_from(first.saturating_add(entry)))?;
        append_place(store.get(number), into)?;
    }
    Ok(())
}

const BOUNDS: EliminationBounds = EliminationBounds {
    entries: 100,
    pairs: 100,
    side: 10,
    length: 10,
};

/// Appends how many clauses are let go as variables are eliminated, and the model that is restored where the others are false.
pub fn append_eliminate(alloc: Global, formula: &Formula, into: &mut String) -> RowResult<()> {
    match Base::new(alloc, formula) {
        Ok((base, None)) => {
            let mut base = base;
            append_behind(alloc, &mut base, into)
        }
        Ok((_, Some(_))) => Ok(into.push_str("false at once")?),
        Err(_) => Err(RowStop::NoMemory),
    }
}

/// The same of clauses of which none is false from the start.
fn append_behind(alloc: Global, base: &mut Base<'_>, into: &mut String) -> RowResult<()>
    requires stands { Stands base.old }
    requires ready { IsReady base.old }
    requires level { base.old.trail.starts ≡ [] }
{
    match eliminate(alloc, base, BOUNDS) {
        Ok(done) => append_restored(alloc, base, &done, into),
        Err(_) => Err(RowStop::NoMemory),
    }
}

fn append_restored(
    alloc: Global,
    base: &Base<'_>,
    done: &Eliminated,
    into: &mut String,
) -> RowResult<()>
    requires { Stands base.now }
{
    let gone = done.clauses.len();
    write!(into, "{gone}")?;
    match kept(restored(alloc, base, done))? {
        Some(bits) => append_bits(bits.as_slice(), into),
        None => Ok(()),
    }
}

fn append_bits(bits: &[bool], into: &mut String) -> RowResult<()> {
    for bit in bits {
        into.push_str(if *bit { " 1" } else { " 0" })?;
    }
    Ok(())
}
