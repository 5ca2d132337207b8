//! Unit propagation by two watched literals (Moskewicz and others, 2001), with a blocking literal beside each watch (as in
//! MiniSat). Under proof: it ends with a false clause, or when no clause forces anything more.
ghost use Rattle.std.specs.Prelude.{◌≡◌, ℕ, ◌+◌, ◌*◌, ◌<◌, ◌≤◌, Bool, true, false, List, [], ◌∷◌, length, take, slice_get, Some, OnOk, IfOk, IfSome, IfNone};
ghost use Rattle.std.specs.Bool.{OnTrue, OnFalse};
ghost use Rattle.kb_chain.specs.Literal.{Literal, has, negated, same, place_of};
ghost use Rattle.kb_propagate.specs.Trail.{TrailGrows};
ghost use Rattle.kb_propagate.specs.Store.{IsJustified};
ghost use Rattle.kb_propagate.specs.Base.{IsConflict};
ghost use Rattle.kb_propagate.specs.Rows.{rows_of, AreReordered};
ghost use Rattle.kb_propagate.specs.Watches.{pairs_of, first_watched, second_watched, other_watched, IsWatchedAt, Quiet, IsWatching, IsAwake, Walks, AllListed, StaysQuiet, is_blocked, all_blocked, with_list};
ghost use Rattle.kb_propagate.specs.Walking.{IfKept, IfConflict, IfGoesOn, kept_with};
ghost use Rattle.kb_propagate.specs.declared.watch.Watch.{Watch};

use crate::NoMemory;
use crate::base::second_of;
use crate::clauses::Clauses;
use crate::trail::Trail;
use crate::watch::Watch;
use crate::watches::{WatchList, Watches, close_gap, put_watch};
use kb_chain::Lit;
use std::mem;

/// Makes true what the clauses force, beginning with the clauses that watch the negation of the literal at position `from`:
/// what comes before it was taken up already. The number of a clause all of whose literals are false, where it meets one.
pub fn propagate(
    clauses: &mut Clauses,
    watches: &mut Watches,
    trail: &mut Trail,
    from: usize,
) -> Result<Option<u32>, NoMemory>
    requires inside { from ≤ length trail.old.literals }
    requires watching { IsWatching (rows_of clauses.old) (pairs_of clauses.old) watches.old.lists.items trail.old.vars }
    requires listed { AllListed watches.old.lists.items (pairs_of clauses.old) }
    requires quiet { Quiet (rows_of clauses.old) (pairs_of clauses.old) (has (take from trail.old.literals)) (has trail.old.literals) }
    ensures watching { OnOk result (IsWatching (rows_of clauses.new) (pairs_of clauses.new) watches.new.lists.items trail.new.vars) }
    ensures listed { OnOk result (AllListed watches.new.lists.items (pairs_of clauses.new)) }
    ensures quiet { IfOk result (λ conflict. IfNone conflict
        (Quiet (rows_of clauses.new) (pairs_of clauses.new) (has trail.new.literals) (has trail.new.literals))) }
    ensures conflict { IfOk result (λ conflict. IfSome conflict (λ number. IsConflict (rows_of clauses.new) trail.new number × IsAwake (pairs_of clauses.new) number)) }
    ensures reordered { OnOk result (AreReordered (rows_of clauses.old) (rows_of clauses.new)) }
    ensures stays { OnOk result (StaysQuiet clauses.old clauses.new (has trail.old.literals)) }
    ensures grows { OnOk result (TrailGrows trail.old trail.new) }
    ensures justified { OnOk result ((all : List (List Literal)) → IsJustified all (rows_of clauses.old) trail.old → IsJustified all (rows_of clauses.new) trail.new) }
{
    let mut next = from;
    while next < trail.literals().len() {
        match visit(clauses, watches, trail, next)? {
            Some(number) => return Ok(Some(number)),
            None => next += 1,
        }
    }
    Ok(None)
}

/// Takes up the watches at the negation of the literal at a position.
fn visit(
    clauses: &mut Clauses,
    watches: &mut Watches,
    trail: &mut Trail,
    position: usize,
) -> Result<Option<u32>, NoMemory>
    requires inside { position < length trail.old.literals }
    requires watching { IsWatching (rows_of clauses.old) (pairs_of clauses.old) watches.old.lists.items trail.old.vars }
    requires listed { AllListed watches.old.lists.items (pairs_of clauses.old) }
    requires quiet { Quiet (rows_of clauses.old) (pairs_of clauses.old) (has (take position trail.old.literals)) (has trail.old.literals) }
    ensures watching { OnOk result (IsWatching (rows_of clauses.new) (pairs_of clauses.new) watches.new.lists.items trail.new.vars) }
    ensures listed { OnOk result (AllListed watches.new.lists.items (pairs_of clauses.new)) }
    ensures quiet { IfOk result (λ conflict. IfNone conflict
        (Quiet (rows_of clauses.new) (pairs_of clauses.new) (has (take (position + 1) trail.new.literals)) (has trail.new.literals))) }
    ensures conflict { IfOk result (λ conflict. IfSome conflict (λ number. IsConflict (rows_of clauses.new) trail.new number × IsAwake (pairs_of clauses.new) number)) }
    ensures reordered { OnOk result (AreReordered (rows_of clauses.old) (rows_of clauses.new)) }
    ensures stays { OnOk result (StaysQuiet clauses.old clauses.new (has trail.old.literals)) }
    ensures grows { OnOk result (TrailGrows trail.old trail.new) }
    ensures justified { OnOk result ((all : List (List Literal)) → IsJustified all (rows_of clauses.old) trail.old → IsJustified all (rows_of clauses.new) trail.new) }
{
    let falsified = trail.literals()[position].negated();
    let place = falsified.place();
    watches.waiting.clear();
    mem::swap(&mut watches.lists[place], &mut watches.waiting);
    let conflict = walk(
        clauses,
        &mut watches.lists,
        trail,
        falsified,
        &mut watches.waiting,
    )?;
    mem::swap(&mut watches.lists[place], &mut watches.waiting);
    Ok(conflict)
}

/// Takes up the watches of a list that was taken out of its place, that of a literal which is false: what stays moves to the
/// front of the list.
fn walk(
    clauses: &mut Clauses,
    lists: &mut Vec<WatchList>,
    trail: &mut Trail,
    falsified: Lit,
    list: &mut WatchList,
) -> Result<Option<u32>, NoMemory>
    requires place { place_of falsified < 2 * trail.old.vars + 2 }
    requires falsified { has trail.old.literals (negated falsified) ≡ true }
    requires watching { IsWatching (rows_of clauses.old) (pairs_of clauses.old) lists.old.items trail.old.vars }
    requires blocked { all_blocked (rows_of clauses.old) list.old ≡ true }
    ensures watching { OnOk result (IsWatching (rows_of clauses.new) (pairs_of clauses.new) lists.new.items trail.new.vars) }
    ensures blocked { OnOk result (all_blocked (rows_of clauses.new) list.new ≡ true) }
    ensures walked { OnOk result ((early : Literal → Bool) → ((l : Literal) → early l ≡ true → has trail.old.literals l ≡ true)
        → Walks early (has trail.old.literals) (rows_of clauses.old) (pairs_of clauses.old) (with_list lists.old.items falsified []) list.old falsified
        → AllListed (with_list lists.new.items falsified list.new) (pairs_of clauses.new)) }
    ensures quiet { IfOk result (λ conflict. IfNone conflict ((early : Literal → Bool) → ((l : Literal) → early l ≡ true → has trail.old.literals l ≡ true)
        → Walks early (has trail.old.literals) (rows_of clauses.old) (pairs_of clauses.old) (with_list lists.old.items falsified []) list.old falsified
        → Quiet (rows_of clauses.new) (pairs_of clauses.new) early (has trail.new.literals))) }
    ensures conflict { IfOk result (λ conflict. IfSome conflict (λ number. IsConflict (rows_of clauses.new) trail.new number × IsAwake (pairs_of clauses.new) number)) }
    ensures reordered { OnOk result (AreReordered (rows_of clauses.old) (rows_of clauses.new)) }
    ensures stays { OnOk result (StaysQuiet clauses.old clauses.new (has trail.old.literals)) }
    ensures grows { OnOk result (TrailGrows trail.old trail.new) }
    ensures justified { OnOk result ((all : List (List Literal)) → IsJustified all (rows_of clauses.old) trail.old → IsJustified all (rows_of clauses.new) trail.new) }
{
    let watches = list.inner.as_mut_slice();
    let walked = take_up(clauses, lists, trail, falsified, watches)?;
    list.truncate(walked.kept);
    Ok(walked.conflict)
}

/// What comes of a list whose watches were taken up.
#[derive(Clone, Copy, Drop)]
struct Walked {
    /// How many watches stay: they stand in front.
    kept: usize,
    /// The number of a clause that is false, where it met one.
    conflict: Option<u32>,
}

/// Takes up the watches of a list, as one slice: where the list keeps them is asked once.
fn take_up(
    clauses: &mut Clauses,
    lists: &mut Vec<WatchList>,
    trail: &mut Trail,
    falsified: Lit,
    watches: &mut [Watch],
) -> Result<Walked, NoMemory>
    requires place { place_of falsified < 2 * trail.old.vars + 2 }
    requires falsified { has trail.old.literals (negated falsified) ≡ true }
    requires watching { IsWatching (rows_of clauses.old) (pairs_of clauses.old) lists.old.items trail.old.vars }
    requires blocked { all_blocked (rows_of clauses.old) watches.old ≡ true }
    ensures watching { OnOk result (IsWatching (rows_of clauses.new) (pairs_of clauses.new) lists.new.items trail.new.vars) }
    ensures blocked { IfOk result (λ walked. all_blocked (rows_of clauses.new) (take walked.kept watches.new) ≡ true) }
    ensures walked { IfOk result (λ walked. (early : Literal → Bool) → ((l : Literal) → early l ≡ true → has trail.old.literals l ≡ true)
        → Walks early (has trail.old.literals) (rows_of clauses.old) (pairs_of clauses.old) (with_list lists.old.items falsified []) watches.old falsified
        → AllListed (with_list lists.new.items falsified (take walked.kept watches.new)) (pairs_of clauses.new)) }
    ensures quiet { IfOk result (λ walked. IfNone walked.conflict ((early : Literal → Bool) → ((l : Literal) → early l ≡ true → has trail.old.literals l ≡ true)
        → Walks early (has trail.old.literals) (rows_of clauses.old) (pairs_of clauses.old) (with_list lists.old.items falsified []) watches.old falsified
        → Quiet (rows_of clauses.new) (pairs_of clauses.new) early (has trail.new.literals))) }
    ensures conflict { IfOk result (λ walked. IfSome walked.conflict (λ number. IsConflict (rows_of clauses.new) trail.new number × IsAwake (pairs_of clauses.new) number)) }
    ensures reordered { OnOk result (AreReordered (rows_of clauses.old) (rows_of clauses.new)) }
    ensures stays { OnOk result (StaysQuiet clauses.old clauses.new (has trail.old.literals)) }
    ensures grows { OnOk result (TrailGrows trail.old trail.new) }
    ensures justified { OnOk result ((all : List (List Literal)) → IsJustified all (rows_of clauses.old) trail.old → IsJustified all (rows_of clauses.new) trail.new) }
{
    let mut kept = 0;
    for next in 0..watches.len() {
        let watch = watches[next];
        let number = watch.clause;
        let outcome = examine(clauses, lists, trail, falsified, watch)?;
        match outcome {
            Outcome::Kept(later) => {
                watches[kept] = later;
                kept += 1;
            }
            Outcome::Removed => {}
            Outcome::Conflict => {
                return Ok(Walked {
                    kept: close_gap(watches, kept, next),
                    conflict: Some(number),
                });
            }
        }
    }
    Ok(Walked {
        kept,
        conflict: None,
    })
}

/// What becomes of a watch that is taken up.
#[derive(Clone, Copy, Drop)]
enum Outcome {
    /// It stays in its list, as this one.
    Kept(Watch),
    /// It is at another literal now, or its clause is watched no longer.
    Removed,
    /// All literals of its clause are false; nothing has changed.
    Conflict,
}

/// Takes up one watch.
fn examine(
    clauses: &mut Clauses,
    lists: &mut Vec<WatchList>,
    trail: &mut Trail,
    falsified: Lit,
    watch: Watch,
) -> Result<Outcome, NoMemory>
    requires place { place_of falsified < 2 * trail.old.vars + 2 }
    requires falsified { has trail.old.literals (negated falsified) ≡ true }
    requires watching { IsWatching (rows_of clauses.old) (pairs_of clauses.old) lists.old.items trail.old.vars }
    requires watch { is_blocked (rows_of clauses.old) watch ≡ true }
    ensures watching { OnOk result (IsWatching (rows_of clauses.new) (pairs_of clauses.new) lists.new.items trail.new.vars) }
    ensures blocked { IfOk result (IfKept (λ later. is_blocked (rows_of clauses.new) later ≡ true)) }
    ensures walked { IfOk result (λ outcome. IfGoesOn ((early : Literal → Bool) (kept others : List Watch)
        → ((l : Literal) → early l ≡ true → has trail.old.literals l ≡ true)
        → Walks early (has trail.old.literals) (rows_of clauses.old) (pairs_of clauses.old) (with_list lists.old.items falsified kept) (watch ∷ others) falsified
        → Walks early (has trail.new.literals) (rows_of clauses.new) (pairs_of clauses.new) (with_list lists.new.items falsified (kept_with kept outcome)) others falsified)
        outcome) }
    ensures reordered { OnOk result (AreReordered (rows_of clauses.old) (rows_of clauses.new)) }
    ensures conflict { IfOk result (IfConflict (IsConflict (rows_of clauses.new) trail.new watch.clause × IsAwake (pairs_of clauses.new) watch.clause)) }
    ensures unchanged { IfOk result (IfConflict ((clauses.new ≡ clauses.old) × (lists.new.items ≡ lists.old.items) × (trail.new ≡ trail.old))) }
    ensures stays { OnOk result (StaysQuiet clauses.old clauses.new (has trail.old.literals)) }
    ensures grows { OnOk result (TrailGrows trail.old trail.new) }
    ensures justified { OnOk result ((all : List (List Literal)) → IsJustified all (rows_of clauses.old) trail.old → IsJustified all (rows_of clauses.new) trail.new) }
{
    trail.tell_trail();
    if trail.is_true(watch.blocker) {
        return Ok(Outcome::Kept(watch));
    }
    if !clauses.is_awake(watch.clause) {
        return Ok(Outcome::Removed);
    }
    let row = clauses.literals(watch.clause);
    let Some(place) = watched_place(row, falsified) else {
        return Ok(Outcome::Removed);
    };
    let other = other_watched(row, place);
    let later = Watch {
        clause: watch.clause,
        blocker: other,
    };
    if trail.is_true(other) {
        return Ok(Outcome::Kept(later));
    }
    if let Some(next) = open_place(row, other, trail) {
        put_watch(lists, row[next], later)?;
        clauses.swap(watch.clause, place, next);
        return Ok(Outcome::Removed);
    }
    if trail.is_false(other) {
        return Ok(Outcome::Conflict);
    }
    trail.assign(other, watch.clause);
    Ok(Outcome::Kept(later))
}

/// Where a row watches a literal; none where it watches two others.
fn watched_place(row: &[Lit], literal: Lit) -> Option<usize>
    requires { 0 < length row.now }
    ensures some { IfSome result (IsWatchedAt row.now literal) }
    ensures none { IfNone result ((same (first_watched row.now) literal ≡ false) × (same (second_watched row.now) literal ≡ false)) }
{
    let place = literal.place();
    if row[0].place() == place {
        return Some(0);
    }
    if row.len() <= 1 {
        return None;
    }
    if row[1].place() == place {
        return Some(1);
    }
    None
}

/// The watched literal that is not the one at this place; the only one where there is no other.
fn other_watched(row: &[Lit], place: usize) -> Lit
    requires { 0 < length row.now }
    ensures { result ≡ other_watched row.now place }
{
    if place > 0 { row[0] } else { second_of(row) }
}

/// Where a row has a literal that it does not watch and that is not false.
fn open_place(row: &[Lit], other: Lit, trail: &Trail) -> Option<usize>
    ensures some { IfSome result (λ next. (2 ≤ next) × (l : Literal) × (slice_get row.now next ≡ Some l) × (has trail.now.literals (negated l) ≡ false)
        × (same l other ≡ false)) }
    ensures none { IfNone result ((k : ℕ) (l : Literal) → 2 ≤ k → slice_get row.now k ≡ Some l → same l other ≡ false → has trail.now.literals (negated l) ≡ true) }
{
    for place in 2..row.len() {
        if is_open(row[place], other, trail) {
            return Some(place);
        }
    }
    None
}

/// Whether a literal is not false, and not the one that is named.
fn is_open(literal: Lit, other: Lit, trail: &Trail) -> bool
    ensures open { OnTrue result ((has trail.now.literals (negated literal) ≡ false) × (same literal other ≡ false)) }
    ensures closed { OnFalse result (same literal other ≡ false → has trail.now.literals (negated literal) ≡ true) }
{
    if trail.is_false(literal) {
        return false;
    }
    literal.place() != other.place()
}
