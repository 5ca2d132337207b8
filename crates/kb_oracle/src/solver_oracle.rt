//! The solver as an oracle.
ghost use Rattle.std.specs.Prelude.{◌≡◌, ℕ, ◌<◌, ◌≤◌, ◌↔◌, length, IfOk, IfErr, OnErr};
ghost use Rattle.kb_outside.specs.Outside.{Rose};
ghost use Rattle.kb_chain.specs.Propagation.{UnitRefutes};
ghost use Rattle.kb_blast.specs.Query.{Query, query_of, AreConditions};
ghost use Rattle.kb_blast.specs.Conditions.{formula_of};
ghost use Rattle.kb_blast.specs.Meaning.{AreMetInPool};
ghost use Rattle.kb_oracle.specs.Answers.{IsAnswerTo, IfModel, IfRefuted, OnUndecided, IfBad, Gains, untold, unsure_after};

use crate::answer::{Answer, OracleStop, unsure_after};
use crate::oracle::Oracle;
use crate::search::answer_within;
use kb_terms::{Pool, TermId};
use std::alloc::Global;
use std::marker::Model;

/// The solver, asked of each query anew: it keeps nothing of one for the next but the count of undecided answers. No
/// stop of it is `Bad`, and it does not tell the answers that it gave.
#[derive(Drop)]
pub struct SolverOracle {
    budget: u32,
    unsure: u64,
}

impl Model for SolverOracle {
    ghost use Rattle.std.specs.Prelude.{◌<◌};
    ghost use Rattle.kb_oracle.specs.States.{SolverState};

    ghost Value = { SolverState };

    ghost view = { λ s. record { budget = s.budget; unsure = s.unsure } };

    ghost invariant = { λ s. 0 < s.budget };
}

impl SolverOracle {
    /// An oracle that was never asked. Its answers have logs of at most `budget` entries.
    pub fn new(budget: u32) -> SolverOracle
        requires { 0 < budget }
        ensures { result ≡ record { budget = budget; unsure = 0 } }
    {
        SolverOracle { budget, unsure: 0 }
    }

    /// How many answers were undecided, in a count that stops at the last value of a u64.
    pub fn unsure(&self) -> u64
        ensures { result ≡ self.now.unsure }
    {
        self.unsure
    }
}

impl Oracle for SolverOracle {
    ghost budget = { λ s. s.budget };

    ghost bad = { λ _. 0 };

    ghost unsure = { λ s. s.unsure };

    ghost unfit = { λ _ _ _. ⊥ };

    ghost given = { λ _. untold };

    fn budget(&self) -> u32
        ensures { result ≡ self.now.budget }
    {
        self.budget
    }

    fn ask(
        &mut self,
        alloc: Global,
        pool: &Pool,
        when: &[(TermId, bool)],
    ) -> Result<Answer, OracleStop>
        requires { AreConditions pool.now when.now }
        ensures answers { IfOk result (IsAnswerTo (query_of pool.now when.now) self.old.budget) }
        ensures met { IfOk result (IfModel (λ values. AreMetInPool pool.now values when.now)) }
        ensures undecided { IfOk result (OnUndecided (Rose self.old.unsure self.new.unsure)) }
        ensures counted { IfErr result (IfBad (λ _. Rose 0 0)) }
        ensures unserved { IfErr result (IfBad (λ _. ⊥)) }
        ensures gains { IfOk result (Gains untold untold) }
        ensures keeps { OnErr result (untold ≡ untold) }
        ensures same_budget { self.new.budget ≡ self.old.budget }
        ensures same_unfit { (i : ℕ) (q : Query) → ⊥ ↔ ⊥ }
        ensures later_bad { 0 ≤ 0 }
        ensures later_unsure { self.old.unsure ≤ self.new.unsure }

        // It counts each undecided answer once, and nothing else; a refutation keeps to the budget, and no answer is undecided
        // where unit propagation alone refutes.
        ensures ok { IfOk result (λ answer. self.new ≡ record self.old { unsure = unsure_after self.old.unsure answer }) }
        ensures err { OnErr result (self.new ≡ self.old) }
        ensures within { IfOk result (IfRefuted (λ log. length log.entries ≤ self.old.budget)) }
        ensures unrefuted { IfOk result (OnUndecided (UnitRefutes (formula_of (query_of pool.now when.now)).clauses → ⊥)) }
    {
        let answer = answer_within(alloc, self.budget, pool, when)?;
        self.unsure = unsure_after(self.unsure, &answer);
        Ok(answer)
    }
}
