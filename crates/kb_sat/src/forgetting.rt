//! Clause database reduction: learned clauses of little use are let go (as in Glucose: Audemard and Simon, 2009). Which ones is
//! free; that nothing relies on them any longer is under proof.
ghost use Rattle.std.specs.Prelude.{◌<◌, length, OnOk};
ghost use Rattle.kb_propagate.specs.Rows.{rows_of};
ghost use Rattle.kb_propagate.specs.Base.{Stands, IsReady, Forgets};
ghost use Rattle.kb_sat.specs.Solver.{Equipped};

use crate::parameters::STAYING_LEVELS;
use crate::search::Search;
use kb_propagate::NoMemory;
use std::alloc::Global;

/// A learned clause that may be let go.
#[derive(Clone, Copy, Drop)]
struct Candidate {
    number: u32,
    levels: u32,
    length: usize,
}

/// Lets learned clauses go that were of little help: half of those that are on more than two levels, were not used since the
/// last time and are no reason of a true literal. The search is whole no longer.
pub(crate) fn forget(alloc: Global, search: &mut Search<'_>) -> Result<(), NoMemory>
    requires stands { Stands search.old.base }
    requires equipped { Equipped search.old }
    requires ready { IsReady search.old.base }
    ensures equipped { OnOk result (Equipped search.new) }
    ensures forgets { OnOk result (Forgets search.old.base search.new.base) }
{
    let mut candidates = candidates(alloc, search)?;
    search.ranks.clear_uses();
    if candidates.len() < 2 {
        return Ok(());
    }
    candidates.sort_unstable_by_key(|candidate| (candidate.levels, candidate.length));
    let kept = candidates.len() - candidates.len() / 2;
    delete_all(search, &candidates[kept..]);
    search.base.purge();
    Ok(())
}

/// The learned clauses that may be let go.
fn candidates(alloc: Global, search: &Search<'_>) -> Result<Vec<Candidate>, NoMemory> {
    let mut found = Vec::new(alloc);
    for number in 0..search.base.clauses.len() {
        if let Some(candidate) = as_candidate(search, number) {
            found.push(candidate)?;
        }
    }
    Ok(found)
}

/// The clause of this number, if it is one that may be let go.
fn as_candidate(search: &Search<'_>, number: u32) -> Option<Candidate>
    requires { number < length (rows_of search.now.base.clauses) }
{
    let rank = search.ranks.ranks.get(number as usize)?;
    if rank.used || rank.levels <= STAYING_LEVELS {
        return None;
    }
    if !search.base.clauses.is_awake(number) || search.base.is_reason(number) {
        return None;
    }
    Some(Candidate {
        number,
        levels: rank.levels,
        length: search.base.clauses.literals(number).len(),
    })
}

/// Deletes clauses.
fn delete_all(search: &mut Search<'_>, candidates: &[Candidate])
    requires stands { Stands search.old.base }
    requires equipped { Equipped search.old }
    requires ready { IsReady search.old.base }
    ensures equipped { Equipped search.new }
    ensures forgets { Forgets search.old.base search.new.base }
{
    for candidate in candidates {
        search.base.delete(candidate.number);
    }
}
