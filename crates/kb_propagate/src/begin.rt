//! The first watches of the clauses of a formula, and its unit clauses. Under proof: each clause is watched.
ghost use Rattle.std.specs.Prelude.{◌≡◌, ℕ, ◌+◌, ◌*◌, ◌<◌, ◌≤◌, true, List, [], ◌∷◌, ◌++◌, length, take, slice_get, Some, OnOk, IfOk, IfSome, IfNone};
ghost use Rattle.std.specs.Bool.{OnTrue, OnFalse};
ghost use Rattle.kb_chain.specs.Literal.{Literal, has, negated, place_of};
ghost use Rattle.kb_chain.specs.Clause.{IsOrdered};
ghost use Rattle.kb_propagate.specs.Trail.{TrailGrows};
ghost use Rattle.kb_propagate.specs.Store.{IsJustified};
ghost use Rattle.kb_propagate.specs.Base.{IsConflict};
ghost use Rattle.kb_propagate.specs.Rows.{rows_of};
ghost use Rattle.kb_propagate.specs.Watches.{AllAwake, pairs_of, IsBegun, put_pair};

use crate::NoMemory;
use crate::clauses::Clauses;
use crate::trail::Trail;
use crate::watch::Watch;
use crate::watches::{Watches, put_watch};
use kb_chain::Lit;

/// Watches all clauses, and makes the literals of unit clauses true. The number of a false clause, where it meets one.
pub fn watch_all(
    clauses: &Clauses,
    watches: &mut Watches,
    trail: &mut Trail,
) -> Result<Option<u32>, NoMemory>
    requires begun { IsBegun [] [] watches.old.lists.items trail.old }
    requires within { (k : ℕ) (row : List Literal) → slice_get (rows_of clauses.now) k ≡ Some row → (l : Literal) → has row l ≡ true → place_of l < 2 * trail.old.vars + 2 }
    requires ordered { (k : ℕ) (row : List Literal) → slice_get (rows_of clauses.now) k ≡ Some row → IsOrdered row }
    requires awake { AllAwake (pairs_of clauses.now) }
    ensures begun { IfOk result (λ conflict. IfNone conflict (IsBegun (rows_of clauses.now) (pairs_of clauses.now) watches.new.lists.items trail.new)) }
    ensures conflict { IfOk result (λ conflict. IfSome conflict (IsConflict (rows_of clauses.now) trail.new)) }
    ensures grows { OnOk result (TrailGrows trail.old trail.new) }
    ensures justified { OnOk result ((all : List (List Literal)) → IsJustified all (rows_of clauses.now) trail.old → IsJustified all (rows_of clauses.now) trail.new) }
{
    for number in 0..clauses.len() {
        if !watch_clause(clauses, watches, trail, number)? {
            return Ok(Some(number));
        }
    }
    Ok(None)
}

/// Watches the next clause: false where it is false already.
fn watch_clause(
    clauses: &Clauses,
    watches: &mut Watches,
    trail: &mut Trail,
    number: u32,
) -> Result<bool, NoMemory>
    requires number { number < length (rows_of clauses.now) }
    requires begun { IsBegun (take number (rows_of clauses.now)) (take number (pairs_of clauses.now)) watches.old.lists.items trail.old }
    requires within { (row : List Literal) → slice_get (rows_of clauses.now) number ≡ Some row → (l : Literal) → has row l ≡ true → place_of l < 2 * trail.old.vars + 2 }
    requires ordered { (row : List Literal) → slice_get (rows_of clauses.now) number ≡ Some row → IsOrdered row }
    requires awake { AllAwake (pairs_of clauses.now) }
    ensures begun { IfOk result (λ goes. OnTrue goes
        (IsBegun (take (number + 1) (rows_of clauses.now)) (take (number + 1) (pairs_of clauses.now)) watches.new.lists.items trail.new)) }
    ensures conflict { IfOk result (λ goes. OnFalse goes (IsConflict (rows_of clauses.now) trail.new number)) }
    ensures grows { OnOk result (TrailGrows trail.old trail.new) }
    ensures justified { OnOk result ((all : List (List Literal)) → IsJustified all (rows_of clauses.now) trail.old → IsJustified all (rows_of clauses.now) trail.new) }
{
    trail.tell_trail();
    let literals = clauses.literals(number);
    if literals.is_empty() {
        return Ok(false);
    }
    let first = literals[0];
    if literals.len() > 1 {
        watch_pair(watches, number, first, literals[1])?;
        return Ok(true);
    }
    if trail.is_false(first) {
        return Ok(false);
    }
    watch_pair(watches, number, first, first)?;
    if trail.is_true(first) {
        return Ok(true);
    }
    trail.assign(first, number);
    Ok(true)
}

/// Puts the watches of a clause into the lists of two literals.
pub fn watch_pair(
    watches: &mut Watches,
    number: u32,
    first: Lit,
    second: Lit,
) -> Result<(), NoMemory>
    requires first { place_of first < length watches.old.lists.items }
    requires second { place_of second < length watches.old.lists.items }
    ensures { OnOk result (watches.new.lists.items ≡ put_pair watches.old.lists.items first second number) }
{
    let at_first = Watch {
        clause: number,
        blocker: second,
    };
    put_watch(&mut watches.lists, first, at_first)?;
    let at_second = Watch {
        clause: number,
        blocker: first,
    };
    put_watch(&mut watches.lists, second, at_second)?;
    Ok(())
}
