//! The clause that one chain of resolutions gives.

ghost use Rattle.std.specs.Prelude.{◌≡◌, ◌+◌, ◌*◌, [], Some, None, IfOk, IfSome, IsSome, MatchBool, fold};
ghost use Rattle.kb_chain.specs.Cnf.{IsWithin};
ghost use Rattle.kb_chain.specs.Chains.{resolved, entry_of};

use crate::NoMemory;
use crate::clause::Clause;
use crate::log::Chain;
use crate::store::Store;
use crate::working::Working;
use std::alloc::Global;

/// The clause that a chain gives from the clauses of the store, if all its resolvents are there.
pub(crate) fn derive(
    alloc: Global,
    store: &Store<'_>,
    working: &mut Working,
    chain: &Chain,
) -> Result<Option<Clause>, NoMemory>
    requires places { working.old.places ≡ 2 * store.now.vars + 2 }
    requires empty { working.old.clause ≡ [] }
    ensures found { IfOk result (λ found. found ≡ entry_of store.now.clauses chain.now) }
    ensures within { IfOk result (λ found. IfSome found (λ clause. IsWithin store.now.vars clause)) }
    ensures places { working.new.places ≡ working.old.places }
    ensures empty { IfOk result (λ found. IsSome found → working.new.clause ≡ []) }
{
    let Some(start) = store.get(chain.start) else {
        return Ok(None);
    };
    working.load(start)?;
    if !follow(store, working, chain.steps.as_slice())? {
        return Ok(None);
    }
    let clause = working.clause(alloc)?;
    working.clear();
    Ok(Some(clause))
}

/// Resolves the clause along the steps, and says whether each resolvent is there.
fn follow(store: &Store<'_>, working: &mut Working, steps: &[(u32, u32)]) -> Result<bool, NoMemory>
    requires { working.old.places ≡ 2 * store.now.vars + 2 }
    ensures found { IfOk result (λ found. MatchBool found
        (fold (resolved store.now.clauses) (Some working.old.clause) steps.now ≡ Some working.new.clause)
        (fold (resolved store.now.clauses) (Some working.old.clause) steps.now ≡ None)) }
    ensures places { working.new.places ≡ working.old.places }
{
    for step in steps {
        let Some(side) = store.get(step.1) else {
            return Ok(false);
        };
        if !working.resolve_with(side, step.0)? {
            return Ok(false);
        }
    }
    Ok(true)
}
