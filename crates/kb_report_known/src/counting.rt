//! The count of objects that are not found, and of slots in which they may still be.
ghost use Rattle.std.specs.Prelude.{◌≡◌, ◌+◌, ◌-◌, ◌*◌, ◌^◌, ℕ, suc, ◌<◌, ◌≤◌, min, nat_lt, nat_le};
ghost use Rattle.std.specs.Option.{option_copied};
ghost use Rattle.kb_report_known.specs.Counts.{argument_ways, known_at, NamedObjects, wanted};
ghost use Rattle.kb_report_known.specs.Known.{nothing_known};
ghost use Rattle.kb_report_known.specs.Listing.{IsCount, Passes};

use crate::fields::Fields;
use crate::known::{INDICES, Known};

/// How many of the objects below the next one are not found, and how many may be found in slots of arguments and of them.
#[derive(Clone, Copy, PartialEq, Eq)]
pub(crate) struct Count {
    pub(crate) next: u64,
    pub(crate) missing: u64,
    pub(crate) ways: u64,
}

impl Count {
    /// No object is passed, and so many arguments may lead to one.
    pub(crate) fn of_arguments(waiting: u64, unseen: u64, fields: Option<&Fields<'_>>) -> Count
        ensures { result ≡ record { next = 0; missing = 0; ways = min (argument_ways (option_copied fields.entry) waiting unseen) (2 ^ 64 - 1) } }
    {
        Count {
            next: 0,
            missing: 0,
            ways: argument_ways(waiting, unseen, fields),
        }
    }

    /// Passes the objects below that number, of which nothing is known; whether each may be found.
    pub(crate) fn pass_unnamed(&mut self, number: u64, fields: Option<&Fields<'_>>) -> bool
        ensures { (objects : NamedObjects) → ((other : ℕ) → self.old.next ≤ other → other < number → known_at objects other ≡ nothing_known) → IsCount (option_copied fields.entry) objects self.old
            → self.old.next ≤ number → number ≤ 2 ^ 32 → Passes (option_copied fields.entry) objects number self.new result }
    {
        let passed = number.saturating_sub(self.next);
        if passed == 0 {
            return true;
        }
        self.next = number;
        match fields {
            Some(_) => self.pass_open(passed),
            None => self.pass_closed(passed),
        }
    }

    // Passes so many, each of which has a way for each index: if the first one may be found, so may the others.
    fn pass_open(&mut self, passed: u64) -> bool
        ensures counted { self.new ≡ record { next = self.old.next; missing = min (self.old.missing + passed) (2 ^ 64 - 1); ways = min (self.old.ways + min (passed * 2 ^ 32) (2 ^ 64 - 1)) (2 ^ 64 - 1) } }
        ensures may { result ≡ nat_lt self.old.missing self.old.ways }
    {
        let may = self.missing < self.ways;
        self.missing = self.missing.saturating_add(passed);
        self.ways = self.ways.saturating_add(passed.saturating_mul(INDICES));
        may
    }

    // Passes so many, none of which has a way: if the last one may be found, so may the others.
    fn pass_closed(&mut self, passed: u64) -> bool
        ensures counted { self.new ≡ record { next = self.old.next; missing = min (self.old.missing + passed) (2 ^ 64 - 1); ways = self.old.ways } }
        ensures may { result ≡ nat_le (min (self.old.missing + passed) (2 ^ 64 - 1)) self.old.ways }
    {
        self.missing = self.missing.saturating_add(passed);
        self.missing <= self.ways
    }

    /// Passes the next object; whether it may be found.
    pub(crate) fn pass(&mut self, known: Known, fields: Option<&Fields<'_>>) -> bool
        ensures { (objects : NamedObjects) → known_at objects self.old.next ≡ known → IsCount (option_copied fields.entry) objects self.old → self.old.next < 2 ^ 32
            → Passes (option_copied fields.entry) objects (suc self.old.next) self.new result }
    {
        let next = self.next.saturating_add(1);
        let missing = self.missing.saturating_add(wanted(known));
        let may = missing <= self.ways;
        let ways = self.ways.saturating_add(known.ways(fields));
        *self = Count {
            next,
            missing,
            ways,
        };
        may
    }
}

fn argument_ways(waiting: u64, unseen: u64, fields: Option<&Fields<'_>>) -> u64
    ensures { result ≡ min (argument_ways (option_copied fields.entry) waiting unseen) (2 ^ 64 - 1) }
{
    match fields {
        Some(_) => waiting.saturating_add(unseen),
        None => waiting,
    }
}

// How many ways the object wants.
fn wanted(known: Known) -> u64
    ensures { result ≡ wanted known.is_found }
{
    if known.is_found { 0 } else { 1 }
}
