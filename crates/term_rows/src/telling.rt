//! Oracles that are told what to do.
ghost use Rattle.std.specs.Prelude.{◌<◌};

use crate::asking::{append_call, solved};
use crate::subjects::{Asked, Subjects};
use kb_oracle::{Answer, Told, ToldOracle};
use kb_questions::read_budget;
use kb_table::{RowResult, RowStop, read_number, read_words};
use std::alloc::Global;

/// Appends what an oracle of the budget does at its first calls, and what it counts: a budget, how many calls there are, and
/// what it is told for which call, as `3:open`, whose log is that of the conditions before these.
pub fn append_told(
    alloc: Global,
    subjects: &Subjects,
    text: &str,
    into: &mut String,
) -> RowResult<()> {
    let words = read_words(alloc, text, ' ')?;
    let [budget, calls, told @ ..] = words.as_slice() else {
        return Err(RowStop::Malformed);
    };
    let calls = read_number(calls.as_str())?;
    let mut oracle = told_oracle(alloc, subjects.former.get(), budget.as_str(), told)?;
    append_calls(alloc, &mut oracle, subjects.current.get(), calls, into)
}

fn told_oracle(
    alloc: Global,
    former: &Asked,
    budget: &str,
    words: &[String],
) -> RowResult<ToldOracle> {
    let budget = read_budget(budget)?;
    let told = read_all_told(alloc, former, budget, words)?;
    Ok(ToldOracle::new(alloc, budget, told))
}

fn read_all_told(
    alloc: Global,
    former: &Asked,
    budget: u32,
    words: &[String],
) -> RowResult<Vec<(u64, Told)>>
    requires { 0 < budget }
{
    let mut told = Vec::new(alloc);
    for word in words {
        told.push(read_told(alloc, former, budget, word.as_str())?)?;
    }
    Ok(told)
}

/// What is told for which call.
fn read_told(alloc: Global, former: &Asked, budget: u32, word: &str) -> RowResult<(u64, Told)>
    requires { 0 < budget }
{
    let Some((call, what)) = word.split_once(':') else {
        return Err(RowStop::Malformed);
    };
    let call = u64::from(read_number(call)?);
    Ok((call, what_is_told(alloc, former, budget, what)?))
}

fn what_is_told(alloc: Global, former: &Asked, budget: u32, what: &str) -> RowResult<Told>
    requires { 0 < budget }
{
    if let Some(number) = what.strip_prefix("bad") {
        return Ok(Told::Bad(read_number(number)?));
    }
    if what == "memory" {
        return Ok(Told::NoMemory);
    }
    undecided(solved(alloc, former.query()?, budget)?)
}

fn undecided(answer: Answer) -> RowResult<Told> {
    match answer {
        Answer::Undecided(log) => Ok(Told::Undecided(log)),
        Answer::Model(_) | Answer::Refuted(_) => Err(RowStop::Malformed),
    }
}

fn append_calls(
    alloc: Global,
    oracle: &mut ToldOracle,
    subject: &Asked,
    calls: u32,
    into: &mut String,
) -> RowResult<()> {
    for _ in 0..calls {
        append_call(alloc, oracle, subject, into)?;
        into.push_str(", ")?;
    }
    append_counts(oracle, into)
}

fn append_counts(oracle: &ToldOracle, into: &mut String) -> RowResult<()> {
    let (calls, bad, unsure) = (oracle.calls(), oracle.bad(), oracle.unsure());
    let given = oracle.given().len();
    Ok(write!(
        into,
        "{calls} calls, {bad} bad, {unsure} undecided, {given} given"
    )?)
}
