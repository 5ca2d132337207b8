//! The check of refutations.

ghost use Rattle.std.specs.Prelude.{◌≡◌, ℕ, Bool, Ok, IfOk};
ghost use Rattle.kb_chain.specs.Clause.{Satisfies};
ghost use Rattle.kb_chain.specs.Verdicts.{JudgesRefutation};

use crate::NoMemory;
use crate::derivation::derive;
use crate::formula::Formula;
use crate::log::{Log, Verdict};
use crate::store::Store;
use crate::working::Working;
use std::alloc::Global;

/// Whether a log refutes a formula. A log of 2^32 entries or more finds no memory.
pub fn check_refutation(alloc: Global, formula: &Formula, log: &Log) -> Result<Verdict, NoMemory>
    ensures verdict { IfOk result (JudgesRefutation formula.now.clauses log.now.entries) }
    ensures unsatisfiable { result ≡ Ok Verdict.Good → (assignment : ℕ → Bool) → Satisfies assignment formula.now.clauses → ⊥ }
{
    let entries = log.entries.as_slice();
    if entries.len() > u32::MAX as usize {
        return Err(NoMemory);
    }
    let mut store = Store::new(alloc, formula);
    let mut working = Working::new(alloc, formula.vars())?;
    let mut refuted = false;
    for (i, entry) in entries.iter().enumerate() {
        let Some(clause) = derive(alloc, &store, &mut working, entry)? else {
            return Ok(Verdict::Bad(i as u32));
        };
        refuted = clause.literals().is_empty();
        store.push(clause)?;
    }
    if refuted {
        return Ok(Verdict::Good);
    }
    Ok(Verdict::Bad(entries.len() as u32))
}
