//! Questions about conditions.
ghost use Rattle.std.specs.Prelude.{◌<◌};

use crate::subjects::{Asked, Subjects, conditions_of};
use crate::terms::{Query, op_named};
use crate::values::judged_values;
use kb_blast::can_blast;
use kb_chain::{Formula, Log};
use kb_oracle::{Answer, Oracle, OracleStop, SolverOracle};
use kb_questions::{Outcome, judged_open, judged_refutation, read_budget};
use kb_table::{RowResult, RowStop, kept, read_words};
use std::alloc::Global;

/// What an oracle says of conditions.
fn asked<O: Oracle>(
    alloc: Global,
    oracle: &mut O,
    query: &Query,
) -> RowResult<Result<Answer, OracleStop>> {
    if !can_blast(&query.pool, query.when.as_slice()) {
        return Err(RowStop::Malformed);
    }
    Ok(oracle.ask(alloc, &query.pool, query.when.as_slice()))
}

/// What the solver says of conditions within a budget.
pub fn solved(alloc: Global, query: &Query, budget: u32) -> RowResult<Answer>
    requires { 0 < budget }
{
    let mut oracle = SolverOracle::new(budget);
    kept(asked(alloc, &mut oracle, query)?)
}

/// Appends what the solver comes to, and how many undecided answers its oracle counts.
pub fn append_ask(
    alloc: Global,
    subject: &Asked,
    budget: &str,
    into: &mut String,
) -> RowResult<()> {
    let mut oracle = SolverOracle::new(read_budget(budget)?);
    append_call(alloc, &mut oracle, subject, into)?;
    let unsure = oracle.unsure();
    Ok(write!(into, ", {unsure} undecided")?)
}

/// Appends what one call of an oracle comes to.
pub fn append_call<O: Oracle>(
    alloc: Global,
    oracle: &mut O,
    subject: &Asked,
    into: &mut String,
) -> RowResult<()> {
    let query = subject.query()?;
    match asked(alloc, oracle, query)? {
        Ok(answer) => append_outcome(alloc, &subject.formula, query, &answer, into),
        Err(OracleStop::Bad(number)) => Ok(write!(into, "bad {number}")?),
        Err(OracleStop::NoMemory) => Ok(into.push_str("no memory")?),
    }
}

fn append_outcome(
    alloc: Global,
    formula: &Formula,
    query: &Query,
    answer: &Answer,
    into: &mut String,
) -> RowResult<()> {
    outcome_of(alloc, formula, query, answer)?.append_to(into)
}

/// What an answer comes to.
fn outcome_of(
    alloc: Global,
    formula: &Formula,
    query: &Query,
    answer: &Answer,
) -> RowResult<Outcome> {
    match answer {
        Answer::Model(values) => judged_values(alloc, query, values.as_slice()),
        Answer::Refuted(log) => judged_refutation(alloc, formula, log),
        Answer::Undecided(log) => judged_open(alloc, formula, log),
    }
}

/// Appends the values of the model.
pub fn append_values(
    alloc: Global,
    subject: &Asked,
    budget: &str,
    into: &mut String,
) -> RowResult<()> {
    let budget = read_budget(budget)?;
    let answer = solved(alloc, subject.query()?, budget)?;
    append_model(&answer, into)
}

fn append_model(answer: &Answer, into: &mut String) -> RowResult<()> {
    let Answer::Model(values) = answer else {
        return Err(RowStop::Malformed);
    };
    for value in values.as_slice() {
        write!(into, "{value} ")?;
    }
    Ok(())
}

/// Appends whether the conditions and those before them have one answer, to the last step of its log.
pub fn append_alike(
    alloc: Global,
    subjects: &Subjects,
    budget: &str,
    into: &mut String,
) -> RowResult<()> {
    let budget = read_budget(budget)?;
    let former = subjects.former.get().query()?;
    let current = subjects.current.get().query()?;
    let alike = have_one_answer(alloc, former, current, budget)?;
    Ok(write!(into, "{alike}")?)
}

fn have_one_answer(alloc: Global, left: &Query, right: &Query, budget: u32) -> RowResult<bool>
    requires { 0 < budget }
{
    let left = solved(alloc, left, budget)?;
    is_answer_to(alloc, &left, right, budget)
}

fn is_answer_to(alloc: Global, answer: &Answer, query: &Query, budget: u32) -> RowResult<bool>
    requires { 0 < budget }
{
    let other = solved(alloc, query, budget)?;
    Ok(are_alike(answer, &other))
}

fn are_alike(left: &Answer, right: &Answer) -> bool {
    match (left, right) {
        (Answer::Model(left), Answer::Model(right)) => left.as_slice() == right.as_slice(),
        (Answer::Refuted(left), Answer::Refuted(right)) => are_one_log(left, right),
        (Answer::Undecided(left), Answer::Undecided(right)) => are_one_log(left, right),
        _ => false,
    }
}

fn are_one_log(left: &Log, right: &Log) -> bool {
    let left = left.entries.as_slice();
    let right = right.entries.as_slice();
    left.len() == right.len()
        && left.iter().zip(right).all(|(a, b)| a.start == b.start
            && a.steps.as_slice() == b.steps.as_slice())
}

/// Appends whether an operation on two ints, of which one that takes one int leaves the second aside, has that value and no
/// other: with the value there is a model, and with every other one a refutation.
pub fn append_computes(alloc: Global, text: &str, into: &mut String) -> RowResult<()> {
    let words = read_words(alloc, text, ' ')?;
    let computes = outcome_where(alloc, words.as_slice(), "+")? == Outcome::Model
        && outcome_where(alloc, words.as_slice(), "-")? == Outcome::Refuted;
    Ok(write!(into, "{computes}")?)
}

/// What the solver comes to where an operation on two ints has that value, with the sign `-` where it has another one.
fn outcome_where(alloc: Global, words: &[String], sign: &str) -> RowResult<Outcome> {
    let [op, left, right, value] = words else {
        return Err(RowStop::Malformed);
    };
    let operands = match op_named(op.as_str()) {
        Some(op) if op.is_binary() => "v0 v1",
        _ => "v0",
    };
    let text = format!(in alloc;
        "+eq v0 {left}, +eq v1 {right}, {sign}eq {op} {operands} {value}"
    )?;
    outcome_of_ints(alloc, text.as_str())
}

/// What the solver comes to on conditions over two ints.
fn outcome_of_ints(alloc: Global, text: &str) -> RowResult<Outcome> {
    let subject = conditions_of(alloc, "ii", text)?;
    outcome_on(alloc, subject.get(), 1000)
}

/// What the solver comes to within a budget.
fn outcome_on(alloc: Global, subject: &Asked, budget: u32) -> RowResult<Outcome>
    requires { 0 < budget }
{
    let query = subject.query()?;
    let answer = solved(alloc, query, budget)?;
    outcome_of(alloc, &subject.formula, query, &answer)
}
