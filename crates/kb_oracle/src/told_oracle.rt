//! An oracle for tests, which does at some calls what it is told.
ghost use Rattle.std.specs.Prelude.{◌≡◌, ℕ, ◌≤◌, ◌↔◌, Some, [], IfOk, IfErr, OnErr};
ghost use Rattle.std.specs.Bool.{OnTrue, OnFalse};
ghost use Rattle.std.specs.Option.{option_copied};
ghost use Rattle.kb_outside.specs.Outside.{Rose};
ghost use Rattle.kb_blast.specs.Query.{Query, query_of, AreConditions};
ghost use Rattle.kb_blast.specs.Meaning.{AreMetInPool};
ghost use Rattle.kb_oracle.specs.Answers.{IsAnswerTo, LeavesOpen, IfModel, OnUndecided, IfBad, Gains};
ghost use Rattle.kb_oracle.specs.States.{told_at, IsHandedOn, DoesAsTold, IsToldBad, told_after};

use crate::NoMemory;
use crate::answer::{Answer, OracleStop, bad_after, copy_of, unsure_after};
use crate::oracle::Oracle;
use crate::search::decide;
use kb_blast::blast;
use kb_chain::{Log, Verdict, check_fresh};
use kb_terms::{Pool, TermId};
use std::alloc::Global;
use std::marker::Model;

/// What a call of a [`ToldOracle`] is told to do.
#[derive(Clone, Drop)]
pub enum Told {
    /// Stop with `Bad` of this number.
    Bad(u32),
    /// Answer that the query is undecided, with this log. A log that is no such answer to the query within the oracle's budget
    /// is left aside: the solver decides, as at a call that is told nothing.
    Undecided(Log),
    /// Stop as if memory ran out.
    NoMemory,
}

/// An oracle for tests. At the calls of the given numbers, which count from 0, it does what it is told. At all other calls
/// the solver decides, however long that takes. It tells the answers that it gave.
#[derive(Drop)]
pub struct ToldOracle {
    budget: u32,
    told: Vec<(u64, Told)>,
    calls: u64,
    bad: u64,
    unsure: u64,
    given: Vec<Answer>,
}

impl Model for ToldOracle {
    ghost use Rattle.kb_oracle.specs.States.{ToldState};

    ghost Value = { ToldState };

    ghost view = { λ s. record {
      budget = s.budget;
      told = s.told.items;
      calls = s.calls;
      bad = s.bad;
      unsure = s.unsure;
      given = s.given.items;
    } };
}

impl ToldOracle {
    /// An oracle that was never asked. Of two things that one call is told it does the first.
    pub fn new(alloc: Global, budget: u32, told: Vec<(u64, Told)>) -> ToldOracle
        ensures { result ≡ record { budget = budget; told = told.items; calls = 0; bad = 0; unsure = 0; given = [] } }
    {
        ToldOracle {
            budget,
            told,
            calls: 0,
            bad: 0,
            unsure: 0,
            given: Vec::new(alloc),
        }
    }

    /// How many calls there were, in a count that stops at the last value of a u64.
    pub fn calls(&self) -> u64
        ensures { result ≡ self.now.calls }
    {
        self.calls
    }

    /// How many stops were `Bad`, in a count that stops at the last value of a u64.
    pub fn bad(&self) -> u64
        ensures { result ≡ self.now.bad }
    {
        self.bad
    }

    /// How many answers were undecided, in a count that stops at the last value of a u64.
    pub fn unsure(&self) -> u64
        ensures { result ≡ self.now.unsure }
    {
        self.unsure
    }

    /// The answers that were given, in order.
    pub fn given(&self) -> &[Answer]
        ensures { result.now ≡ self.now.given }
    {
        self.given.as_slice()
    }
}

impl Oracle for ToldOracle {
    ghost budget = { λ s. s.budget };

    ghost bad = { λ s. s.bad };

    ghost unsure = { λ s. s.unsure };

    ghost unfit = { λ s i _. IsToldBad s.told i };

    ghost given = { λ s. Some s.given };

    fn budget(&self) -> u32
        ensures { result ≡ self.now.budget }
    {
        self.budget
    }

    fn ask(
        &mut self,
        alloc: Global,
        pool: &Pool,
        when: &[(TermId, bool)],
    ) -> Result<Answer, OracleStop>
        requires { AreConditions pool.now when.now }
        ensures answers { IfOk result (IsAnswerTo (query_of pool.now when.now) self.old.budget) }
        ensures met { IfOk result (IfModel (λ values. AreMetInPool pool.now values when.now)) }
        ensures undecided { IfOk result (OnUndecided (Rose self.old.unsure self.new.unsure)) }
        ensures counted { IfErr result (IfBad (λ _. Rose self.old.bad self.new.bad)) }
        ensures unserved { IfErr result (IfBad (λ i. IsToldBad self.old.told i)) }
        ensures gains { IfOk result (Gains (Some self.old.given) (Some self.new.given)) }
        ensures keeps { OnErr result (Some self.new.given ≡ Some self.old.given) }
        ensures same_budget { self.new.budget ≡ self.old.budget }
        ensures same_unfit { (i : ℕ) (q : Query) → IsToldBad self.new.told i ↔ IsToldBad self.old.told i }
        ensures later_bad { self.old.bad ≤ self.new.bad }
        ensures later_unsure { self.old.unsure ≤ self.new.unsure }

        // What it is told for this call it does, and it counts calls, bad stops and undecided answers.
        ensures told { DoesAsTold (query_of pool.now when.now) self.old.budget (told_at self.old.told self.old.calls) result }
        ensures after { self.new ≡ told_after self.old result }
    {
        let call = self.calls;
        self.calls = call.saturating_add(1);
        match answer_told(alloc, told_at(&self.told, call), self.budget, pool, when) {
            Ok(answer) => {
                let copy = copy_of(&answer)?;
                self.given.push(copy)?;
                self.unsure = unsure_after(self.unsure, &answer);
                Ok(answer)
            }
            Err(stop) => {
                self.bad = bad_after(self.bad, stop);
                Err(stop)
            }
        }
    }
}

/// What the call of that number is told.
fn told_at(told: &[(u64, Told)], call: u64) -> Option<&Told>
    ensures { option_copied result ≡ told_at told.now call }
{
    told.iter().find(|t| t.0 == call).map(|t| &t.1)
}

/// What a call that is told this answers, where the counts are left aside.
fn answer_told(
    alloc: Global,
    told: Option<&Told>,
    budget: u32,
    pool: &Pool,
    when: &[(TermId, bool)],
) -> Result<Answer, OracleStop>
    requires { AreConditions pool.now when.now }
    ensures answers { IfOk result (IsAnswerTo (query_of pool.now when.now) budget) }
    ensures met { IfOk result (IfModel (λ values. AreMetInPool pool.now values when.now)) }
    ensures told { DoesAsTold (query_of pool.now when.now) budget (option_copied told.entry) result }
{
    match told {
        Some(Told::Bad(number)) => Err(OracleStop::Bad(*number)),
        Some(Told::NoMemory) => Err(OracleStop::NoMemory),
        Some(Told::Undecided(log)) => Ok(hand_on(alloc, log, budget, pool, when)?),
        None => Ok(decide(alloc, pool, when)?),
    }
}

/// The log, where it leaves the conditions open; else what the solver decides.
fn hand_on(
    alloc: Global,
    log: &Log,
    budget: u32,
    pool: &Pool,
    when: &[(TermId, bool)],
) -> Result<Answer, NoMemory>
    requires { AreConditions pool.now when.now }
    ensures answers { IfOk result (IsAnswerTo (query_of pool.now when.now) budget) }
    ensures met { IfOk result (IfModel (λ values. AreMetInPool pool.now values when.now)) }
    ensures handed { IfOk result (IsHandedOn (query_of pool.now when.now) budget log.now) }
{
    if leaves_open(alloc, log, budget, pool, when)? {
        let copy = log.clone()?;
        return Ok(Answer::Undecided(copy));
    }
    decide(alloc, pool, when)
}

/// Whether the log has as many entries as the budget, all new to unit propagation on the conditions' formula.
fn leaves_open(
    alloc: Global,
    log: &Log,
    budget: u32,
    pool: &Pool,
    when: &[(TermId, bool)],
) -> Result<bool, NoMemory>
    requires { AreConditions pool.now when.now }
    ensures yes { IfOk result (λ left. OnTrue left (LeavesOpen (query_of pool.now when.now) budget log.now)) }
    ensures no { IfOk result (λ left. OnFalse left (LeavesOpen (query_of pool.now when.now) budget log.now → ⊥)) }
{
    if log.entries.as_slice().len() != budget as usize {
        return Ok(false);
    }
    let blasted = blast(alloc, pool, when)?;
    match check_fresh(alloc, &blasted.formula, log)? {
        Verdict::Good => Ok(true),
        Verdict::Bad(_) => Ok(false),
    }
}
