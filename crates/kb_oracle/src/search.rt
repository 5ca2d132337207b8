//! A search for the answer to a query. It sees the query's formula, the words of its variables and the budget, and nothing that
//! was asked before.
ghost use Rattle.std.specs.Prelude.{◌≡◌, ◌<◌, ◌≤◌, ℕ, pos, length, IfOk};
ghost use Rattle.kb_chain.specs.Clause.{assignment_of};
ghost use Rattle.kb_chain.specs.Propagation.{UnitRefutes};
ghost use Rattle.kb_terms.specs.Terms.{int_at};
ghost use Rattle.kb_blast.specs.Query.{query_of, AreConditions};
ghost use Rattle.kb_blast.specs.Conditions.{formula_of};
ghost use Rattle.kb_blast.specs.Meaning.{AreMetInPool, AreReadable, Reads, IsElsewhere};
ghost use Rattle.kb_oracle.specs.Answers.{IsAnswerTo, IfModel, IfRefuted, OnUndecided, IsDecided};
ghost use Rattle.kb_oracle.specs.Search.{IsFound};

use crate::NoMemory;
use crate::answer::Answer;
use kb_blast::{Blasted, blast, read_back};
use kb_chain::{Lit, Row};
use kb_sat::{Solved, solve_from};
use kb_terms::{Pool, TermId};
use std::alloc::Global;

/// What the solver says of conditions within a budget.
pub(crate) fn answer_within(
    alloc: Global,
    budget: u32,
    pool: &Pool,
    when: &[(TermId, bool)],
) -> Result<Answer, NoMemory>
    requires conditions { AreConditions pool.now when.now }
    requires budget { 0 < budget }
    ensures answers { IfOk result (IsAnswerTo (query_of pool.now when.now) budget) }
    ensures met { IfOk result (IfModel (λ values. AreMetInPool pool.now values when.now)) }
    ensures within { IfOk result (IfRefuted (λ log. length log.entries ≤ budget)) }
    ensures unrefuted { IfOk result (OnUndecided (UnitRefutes (formula_of (query_of pool.now when.now)).clauses → ⊥)) }
{
    let blasted = blast(alloc, pool, when)?;
    search(alloc, budget, &blasted, pool.variables())
}

/// What the solver says of a query's formula within a budget. The query has so many variables.
fn search(alloc: Global, budget: u32, blasted: &Blasted, variables: u32) -> Result<Answer, NoMemory>
    requires readable { AreReadable blasted.now.formula.vars variables blasted.now.vars }
    requires budget { 0 < budget }
    ensures { IfOk result (IsFound blasted.now.vars blasted.now.formula variables budget) }
{
    let first = input_bits(alloc, blasted)?;
    match solve_from(alloc, &blasted.formula, budget, first.as_slice())? {
        Solved::Sat(bits) => {
            let values = values_of(alloc, blasted, bits.as_slice(), variables)?;
            Ok(Answer::Model(values))
        }
        Solved::Unsat(log) => Ok(Answer::Refuted(log)),
        Solved::Undecided(log) => Ok(Answer::Undecided(log)),
    }
}

/// The formula's variables that are bits of the query's: variable after variable, the highest bit of each first. With the values
/// of these a search knows all others, so it decides them first.
fn input_bits(alloc: Global, blasted: &Blasted) -> Result<Vec<u32>, NoMemory> {
    let mut first = Vec::new(alloc);
    for word in blasted.vars.as_slice() {
        push_bits(&word.1, &mut first)?;
    }
    Ok(first)
}

fn push_bits(word: &[Lit; 32], bits: &mut Vec<u32>) -> Result<(), NoMemory> {
    for literal in word.iter().rev() {
        bits.push(literal.variable())?;
    }
    Ok(())
}

/// The value of each of so many variables under the bits of a formula's variables; 0 for a variable without a word.
fn values_of(
    alloc: Global,
    blasted: &Blasted,
    bits: &[bool],
    variables: u32,
) -> Result<Row<i32>, NoMemory>
    requires readable { AreReadable blasted.now.formula.vars variables blasted.now.vars }
    requires bits { length bits.now ≡ blasted.now.formula.vars }
    ensures count { IfOk result (λ values. length values ≡ variables) }
    ensures read { IfOk result (Reads (assignment_of bits.now) blasted.now.vars) }
    ensures others { IfOk result (λ values. (v : ℕ) → IsElsewhere v blasted.now.vars → int_at values v ≡ pos 0) }
{
    let mut values = vec![in alloc; 0; variables as usize]?;
    read_back(blasted, bits, &mut values);
    Ok(Row::from_vec(values))
}

/// What the solver says within the largest budget. A search that spends even this one counts as out of memory.
pub(crate) fn decide(
    alloc: Global,
    pool: &Pool,
    when: &[(TermId, bool)],
) -> Result<Answer, NoMemory>
    requires { AreConditions pool.now when.now }
    ensures answers { (budget : ℕ) → IfOk result (IsAnswerTo (query_of pool.now when.now) budget) }
    ensures met { IfOk result (IfModel (λ values. AreMetInPool pool.now values when.now)) }
    ensures decided { IfOk result IsDecided }
{
    match answer_within(alloc, u32::MAX, pool, when)? {
        Answer::Model(values) => Ok(Answer::Model(values)),
        Answer::Refuted(log) => Ok(Answer::Refuted(log)),
        Answer::Undecided(_) => Err(NoMemory),
    }
}
