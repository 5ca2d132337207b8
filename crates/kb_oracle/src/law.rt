//! What answers to one query have in common.
ghost use Rattle.kb_oracle.specs.Laws.{ModelsAreNotRefuted, RefutedAreNeverMet, ModelsMeetEveryPool, LargerPoolsAskTheSame};

/// A query that has a model has no refutation: of two answers to one query, whichever oracles give them and with whatever
/// budgets, not one is a model and the other a refutation. The function does nothing: it carries the law.
pub fn models_are_not_refuted()
    ensures { ModelsAreNotRefuted }
{}

/// Conditions of which a refutation is known are met by no values that the variables can have: not by those that an input gives
/// them. The function does nothing: it carries the law.
pub fn refuted_are_never_met()
    ensures { RefutedAreNeverMet }
{}

/// A model of a query makes the conditions true in each pool that asks this query, whichever it was that asked. The function
/// does nothing: it carries the law.
pub fn models_meet_every_pool()
    ensures { ModelsMeetEveryPool }
{}

/// A pool with more terms, but no more variables, asks the same query: other terms change nothing. The function does
/// nothing: it carries the law.
pub fn larger_pools_ask_the_same()
    ensures { LargerPoolsAskTheSame }
{}
