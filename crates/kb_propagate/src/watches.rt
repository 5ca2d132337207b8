//! The lists of watches. Under proof: each clause that wasn't let go is in the lists of its two watched literals.
ghost use Rattle.std.specs.Prelude.{◌≡◌, ℕ, ◌+◌, ◌*◌, ◌<◌, ◌≤◌, true, [], ◌∷◌, ◌++◌, length, take, map, filter, slice_set, OnOk, IfOk};
ghost use Rattle.std.specs.List.{remove_range};
ghost use Rattle.kb_chain.specs.Literal.{place_of};
ghost use Rattle.kb_propagate.specs.Watches.{at_literal, AreEmpty};
ghost use Rattle.kb_propagate.specs.Forgetting.{has_awake_clause, only_awake};

use crate::NoMemory;
use crate::clauses::Clauses;
use crate::watch::Watch;
use kb_chain::Lit;
use smallvec::SmallVec;
use std::alloc::Global;
use std::marker::Model;

/// How many watches a list keeps with no allocation: as many as most lists of a formula of gates have.
const INLINE: usize = 4;

/// The watches at one literal.
#[derive(Drop)]
pub struct WatchList {
    pub(crate) inner: SmallVec<Watch, INLINE>,
}

impl Model for WatchList {
    ghost use Rattle.std.specs.Prelude.{List};
    ghost use Rattle.kb_propagate.specs.declared.watch.Watch.{Watch};

    ghost Value = { List Watch };

    ghost view = { λ w. w.inner.items };
}

impl WatchList {
    pub fn new(alloc: Global) -> WatchList
        ensures { result ≡ [] }
    {
        WatchList {
            inner: SmallVec::new(alloc),
        }
    }

    pub fn push(&mut self, watch: Watch) -> Result<(), NoMemory>
        ensures { OnOk result (self.new ≡ self.old ++ watch ∷ []) }
    {
        self.inner.push(watch)?;
        Ok(())
    }

    pub fn clear(&mut self)
        ensures { self.new ≡ [] }
    {
        self.inner.clear();
    }

    /// Keeps only the first watches.
    pub fn truncate(&mut self, kept: usize)
        ensures { self.new ≡ take kept self.old }
    {
        self.inner.truncate(kept);
    }

    /// Keeps only the watches of clauses that are awake.
    fn keep_awake(&mut self, clauses: &Clauses)
        ensures { self.new ≡ filter (has_awake_clause clauses.now) self.old }
    {
        let kept = move_awake(self.inner.as_mut_slice(), clauses);
        self.truncate(kept);
    }
}

/// Moves the watches of clauses that are awake to the front, and says how many they are.
fn move_awake(watches: &mut [Watch], clauses: &Clauses) -> usize
    ensures { take result watches.new ≡ filter (has_awake_clause clauses.now) watches.old }
{
    let mut kept = 0;
    for next in 0..watches.len() {
        let watch = watches[next];
        if clauses.is_awake(watch.clause) {
            watches[kept] = watch;
            kept += 1;
        }
    }
    kept
}

/// Moves the watches from `end` on down to `start`, over those between, and says how many are left.
pub fn close_gap(watches: &mut [Watch], start: usize, end: usize) -> usize
    requires order { start ≤ end }
    requires inside { end ≤ length watches.old }
    ensures { take result watches.new ≡ remove_range watches.old start end }
{
    let left = watches.len() - (end - start);
    watches.copy_within(end.., start);
    left
}

/// The watches by the place of the literal that is watched.
#[derive(Drop)]
pub struct Watches {
    pub lists: Vec<WatchList>,
    /// Where a list is as long as its watches are taken up; empty otherwise.
    pub waiting: WatchList,
}

impl Watches {
    /// No watches at the literals of the variables up to `vars`.
    pub fn new(alloc: Global, vars: u32) -> Result<Watches, NoMemory>
        ensures places { IfOk result (λ w. length w.lists.items ≡ 2 * vars + 2) }
        ensures lists { IfOk result (λ w. AreEmpty w.lists.items) }
    {
        let mut lists = Vec::new(alloc);
        for _place in 0..2 * vars as usize + 2 {
            lists.push(WatchList::new(alloc))?;
        }
        Ok(Watches {
            lists,
            waiting: WatchList::new(alloc),
        })
    }

    /// Takes the watches of clauses that are watched no longer out of the lists.
    pub fn purge(&mut self, clauses: &Clauses)
        ensures { self.new.lists.items ≡ map (only_awake clauses.now) self.old.lists.items }
    {
        for list in self.lists.iter_mut() {
            list.keep_awake(clauses);
        }
    }
}

/// Puts a watch into the list of a literal.
pub fn put_watch(lists: &mut Vec<WatchList>, literal: Lit, watch: Watch) -> Result<(), NoMemory>
    requires { place_of literal < length lists.old.items }
    ensures ok { OnOk result (lists.new.items ≡ slice_set lists.old.items (place_of literal) (at_literal lists.old.items literal ++ watch ∷ [])) }
{
    let list = &mut lists[literal.place()];
    list.push(watch)?;
    Ok(())
}
