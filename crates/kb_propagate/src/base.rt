//! The base of a search: its clauses with their derivations in the log, the literals that are true, and the watches that tell
//! what the clauses force. Under proof: the log derives each clause, and what propagation meets.
ghost use Rattle.std.specs.Prelude.{◌≡◌, ℕ, ◌<◌, true, [], length, slice_get, Some, OnOk, IfOk, IfSome, IfNone};
ghost use Rattle.kb_propagate.specs.Base.{Stands, IsReady, KeepsBase, Forgets, IsConflict, IsPropagated, IsSecondLiteral, IsDoomed};
ghost use Rattle.std.specs.Bool.{OnTrue, OnFalse};
ghost use Rattle.kb_propagate.specs.Trail.{TrailGrows};
ghost use Rattle.kb_propagate.specs.Store.{IsNoReason};
ghost use Rattle.kb_propagate.specs.Rows.{rows_of};
ghost use Rattle.kb_propagate.specs.Forgetting.{asleep, IsDeletedUnlessReason};
ghost use Rattle.kb_propagate.specs.Watches.{pairs_of, IsAwake};

use crate::NoMemory;
use crate::begin::watch_all;
use crate::clauses::Clauses;
use crate::flat_log::FlatLog;
use crate::propagation::propagate;
use crate::trail::Trail;
use crate::watches::Watches;
use kb_chain::{Formula, Lit};
use std::alloc::Global;

/// What a search stands on.
#[derive(Drop)]
pub struct Base<'a> {
    pub formula: &'a Formula,
    /// The derivations of the clauses that came to those of the formula.
    pub entries: FlatLog,
    pub clauses: Clauses,
    pub watches: Watches,
    pub trail: Trail,
    /// How many literals of the trail were taken up.
    pub head: usize,
    /// Whether every clause is watched still.
    pub whole: bool,
}

impl<'a> Base<'a> {
    /// The clauses of a formula; or the number of one that is false from the start.
    pub fn new(alloc: Global, formula: &'a Formula) -> Result<(Base<'a>, Option<u32>), NoMemory>
        ensures formula { IfOk result (λ begun. begun.0.formula.now ≡ formula.now) }
        ensures entries { IfOk result (λ begun. begun.0.entries ≡ []) }
        ensures stands { IfOk result (λ begun. IfNone begun.1 (Stands begun.0)) }
        ensures ready { IfOk result (λ begun. IfNone begun.1 (IsReady begun.0)) }
        ensures conflict { IfOk result (λ begun. IfSome begun.1 (IsDoomed begun.0)) }
        ensures vars { IfOk result (λ begun. begun.0.trail.vars ≡ formula.now.vars) }
        ensures whole { IfOk result (λ begun. begun.0.whole ≡ true) }
        ensures level { IfOk result (λ begun. begun.0.trail.starts ≡ []) }
    {
        let vars = formula.vars();
        let mut clauses = Clauses::new(alloc);
        for clause in formula.clauses() {
            clauses.push(clause.literals())?;
        }
        let mut watches = Watches::new(alloc, vars)?;
        let mut trail = Trail::new(alloc, vars)?;
        let conflict = watch_all(&clauses, &mut watches, &mut trail)?;
        let base = Base {
            formula,
            entries: FlatLog::new(alloc),
            clauses,
            watches,
            trail,
            head: 0,
            whole: true,
        };
        Ok((base, conflict))
    }

    /// Propagates; the number of a clause that is false, where it meets one.
    pub fn settle(&mut self) -> Result<Option<u32>, NoMemory>
        requires stands { Stands self.old }
        requires ready { IsReady self.old }
        ensures keeps { OnOk result (KeepsBase self.old self.new) }
        ensures conflict { IfOk result (λ conflict. IfSome conflict (λ number. IsConflict (rows_of self.new.clauses) self.new.trail number × IsAwake (pairs_of self.new.clauses) number)) }
        ensures settled { IfOk result (λ conflict. IfNone conflict (IsPropagated self.new)) }
        ensures grows { OnOk result (TrailGrows self.old.trail self.new.trail) }
    {
        self.trail.tell_trail();
        let conflict = propagate(
            &mut self.clauses,
            &mut self.watches,
            &mut self.trail,
            self.head,
        )?;
        if let Some(number) = conflict {
            return Ok(Some(number));
        }
        self.trail.tell_trail();
        self.head = self.trail.literals().len();
        Ok(None)
    }

    /// Lets a clause go: it is watched no longer, but its literals stay. The base is whole no longer.
    pub fn let_go(&mut self, number: u32)
        requires stands { Stands self.old }
        requires ready { IsReady self.old }
        ensures forgets { Forgets self.old self.new }
        ensures rows { rows_of self.new.clauses ≡ rows_of self.old.clauses }
        ensures clauses { self.new.clauses ≡ asleep self.old.clauses number }
    {
        self.whole = false;
        self.clauses.let_go(number);
    }

    /// Deletes a clause, unless it is the reason of a true literal. The base is whole no longer.
    pub fn delete(&mut self, number: u32)
        requires stands { Stands self.old }
        requires ready { IsReady self.old }
        ensures forgets { Forgets self.old self.new }
        ensures clauses { IsDeletedUnlessReason self.old.trail number self.old.clauses self.new.clauses }
    {
        if self.is_reason(number) {
            return;
        }
        self.whole = false;
        self.clauses.delete(number);
    }

    /// Whether a clause is the reason of one of its literals.
    pub fn is_reason(&self, number: u32) -> bool
        ensures reason { OnTrue result (IsNoReason self.now.trail number → ⊥) }
        ensures none { Stands self.now → OnFalse result (IsNoReason self.now.trail number) }
    {
        self.trail.tell_trail();
        if number >= self.clauses.len() {
            return false;
        }
        for literal in self.clauses.literals(number) {
            if forces(&self.trail, number, *literal) {
                return true;
            }
        }
        false
    }

    /// Takes the watches of clauses that were let go or deleted out of the lists, and moves the others together.
    pub fn purge(&mut self)
        requires stands { Stands self.old }
        requires ready { IsReady self.old }
        ensures forgets { Forgets self.old self.new }
        ensures clauses { self.new.clauses ≡ self.old.clauses }
        ensures whole { self.new.whole ≡ self.old.whole }
    {
        self.watches.purge(&self.clauses);
        self.clauses.compact();
    }
}

/// Whether the clause of a number is the reason of a literal that is true.
fn forces(trail: &Trail, number: u32, literal: Lit) -> bool
    ensures forced { OnTrue result ((i : ℕ) × (slice_get trail.now.reasons i ≡ Some (Some number))) }
    ensures free { OnFalse result ((i : ℕ) → slice_get trail.now.literals i ≡ Some literal → slice_get trail.now.reasons i ≡ Some (Some number) → ⊥) }
{
    trail.tell_once();
    if !trail.is_true(literal) {
        return false;
    }
    trail.reason(trail.position(literal)) == Some(number)
}

/// The second literal of a clause, or the first one where there is no other.
pub fn second_of(literals: &[Lit]) -> Lit
    requires { 0 < length literals.now }
    ensures { IsSecondLiteral literals.now result }
{
    if literals.len() > 1 {
        literals[1]
    } else {
        literals[0]
    }
}
