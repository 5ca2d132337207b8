//! What every oracle owes.
ghost use Rattle.std.specs.Prelude.{◌≡◌, ℕ, ◌≤◌, ◌↔◌, Option, List, IfOk, IfErr, OnErr};
ghost use Rattle.kb_outside.specs.Outside.{Rose};
ghost use Rattle.kb_blast.specs.Query.{Query, query_of, AreConditions};
ghost use Rattle.kb_blast.specs.Meaning.{AreMetInPool};
ghost use Rattle.kb_oracle.specs.declared.answer.Answer.{Answer};
ghost use Rattle.kb_oracle.specs.Answers.{IsAnswerTo, IfModel, OnUndecided, IfBad, Gains};

use crate::answer::{Answer, OracleStop};
use kb_terms::{Pool, TermId};
use std::alloc::Global;

/// Something that is asked whether conditions can hold. What is asked is a query: the kinds of the pool's variables, and
/// the conditions with their terms as texts number them. So two pools can ask one question.
pub trait Oracle {
    /// How many entries the log of an undecided answer has.
    ghost budget: { Self → ℕ };

    /// How many stops were `Bad`, in a count that stops at the last value of a u64.
    ghost bad: { Self → ℕ };

    /// How many answers were undecided, in a count that stops at the last value of a u64.
    ghost unsure: { Self → ℕ };

    /// The answer of that number, among those that the oracle goes by, does not serve the query.
    ghost unfit: { Self → ℕ → Query → Type 0 };

    /// The answers so far, in order, where the oracle tells them.
    ghost given: { Self → Option (List Answer) };

    /// How many entries the log of an undecided answer has.
    fn budget(&self) -> u32
        ensures { result ≡ budget self.now };

    /// Whether the conditions can hold, each a comparison with its stated truth.
    fn ask(
        &mut self,
        alloc: Global,
        pool: &Pool,
        when: &[(TermId, bool)],
    ) -> Result<Answer, OracleStop>
        requires { AreConditions pool.now when.now }
        ensures answers { IfOk result (IsAnswerTo (query_of pool.now when.now) (budget self.old)) }
        ensures met { IfOk result (IfModel (λ values. AreMetInPool pool.now values when.now)) }

        // An answer is undecided, and a stop is bad, only where it was counted, and bad only where the named answer is unfit.
        ensures undecided { IfOk result (OnUndecided (Rose (unsure self.old) (unsure self.new))) }
        ensures counted { IfErr result (IfBad (λ _. Rose (bad self.old) (bad self.new))) }
        ensures unserved { IfErr result (IfBad (λ i. unfit self.old i (query_of pool.now when.now))) }

        ensures gains { IfOk result (Gains (given self.old) (given self.new)) }
        ensures keeps { OnErr result (given self.new ≡ given self.old) }
        ensures same_budget { budget self.new ≡ budget self.old }
        ensures same_unfit { (i : ℕ) (q : Query) → unfit self.new i q ↔ unfit self.old i q }
        ensures later_bad { bad self.old ≤ bad self.new }
        ensures later_unsure { unsure self.old ≤ unsure self.new };
}
