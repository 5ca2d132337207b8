//! The search (conflict-driven clause learning: Marques-Silva and Sakallah, 1999): propagate, decide, learn from a conflict,
//! jump back. That it stays within what the log derives is under proof; which literals it tries is free.
ghost use Rattle.std.specs.Prelude.{◌≡◌, ℕ, ◌+◌, ◌*◌, ◌<◌, ◌≤◌, true, false, Some, [], ◌∷◌, ◌++◌, length, OnOk, IfOk, IfSome, IfNone};
ghost use Rattle.kb_chain.specs.Literal.{Literal, has, negated, place_of};
ghost use Rattle.kb_propagate.specs.Trail.{TrailGrows, level_start, cut_back};
ghost use Rattle.kb_propagate.specs.Rows.{rows_of, awake_clause};
ghost use Rattle.kb_propagate.specs.Watches.{pairs_of, IsAwake, put_pair};
ghost use Rattle.kb_propagate.specs.Base.{Stands, IsReady, IsConflict, IsComplete, IsPropagated, IsDoomed};
ghost use Rattle.kb_sat.specs.Solver.{Equipped, IsEquipped, GoesOn, Keeps, StepIs};

use crate::analysis::{Marks, analyse};
use crate::counts::Counts;
use crate::parameters::FIRST_PHASE;
use kb_chain::{Formula, Lit};
use kb_heuristics::{ActivityOrder, Ranks, levels_of, pick};
use kb_propagate::{Base, NoMemory, second_of, watch_pair};
use kb_rows::Held;
use std::alloc::Global;

/// The state of a search.
#[derive(Drop)]
pub(crate) struct Search<'a> {
    pub(crate) base: Base<'a>,
    pub(crate) order: ActivityOrder,
    /// The sign that each variable had last.
    pub(crate) phases: Vec<bool>,
    pub(crate) marks: Marks,
    /// How much the learned clauses were of use.
    pub(crate) ranks: Ranks,
    pub(crate) counts: Counts,
}

impl<'a> Search<'a> {
    /// The search that begins with the clauses of a formula, and decides the variables of `first` before others; or the number of
    /// a clause that is false from the start.
    pub(crate) fn new(
        alloc: Global,
        formula: &'a Formula,
        first: &[u32],
    ) -> Result<(Held<Search<'a>>, Option<u32>), NoMemory>
        ensures formula { IfOk result (λ begun. begun.0.base.formula.now ≡ formula.now) }
        ensures entries { IfOk result (λ begun. begun.0.base.entries ≡ []) }
        ensures stands { IfOk result (λ begun. IfNone begun.1 (Stands begun.0.base)) }
        ensures equipped { IfOk result (λ begun. Equipped begun.0) }
        ensures ready { IfOk result (λ begun. IfNone begun.1 (IsReady begun.0.base)) }
        ensures conflict { IfOk result (λ begun. IfSome begun.1 (IsDoomed begun.0.base)) }
        ensures whole { IfOk result (λ begun. begun.0.base.whole ≡ true) }
        ensures level { IfOk result (λ begun. begun.0.base.trail.starts ≡ []) }
    {
        let (order, phases, marks) = tables(alloc, formula.vars(), first)?;
        let (base, conflict) = Base::new(alloc, formula)?;
        let search = Search {
            base,
            order,
            phases,
            marks,
            ranks: Ranks::new(alloc),
            counts: Counts::default(),
        };
        Ok((Held::new(alloc, search)?, conflict))
    }

    /// Decides until a clause is false, and answers its number; none where all variables have a value.
    pub(crate) fn run(&mut self) -> Result<Option<u32>, NoMemory>
        requires stands { Stands self.old.base }
        requires equipped { Equipped self.old }
        requires ready { IsReady self.old.base }
        ensures keeps { OnOk result (Keeps self.old self.new) }
        ensures conflict { IfOk result (λ conflict. IfSome conflict (λ number. IsConflict (rows_of self.new.base.clauses) self.new.base.trail number × IsAwake (pairs_of self.new.base.clauses) number)) }
        ensures complete { IfOk result (λ conflict. IfNone conflict (IsComplete self.new.base)) }
    {
        loop {
            match self.step()? {
                Step::Conflict(number) => return Ok(Some(number)),
                Step::Complete => return Ok(None),
                Step::Decided => {}
            }
        }
    }

    /// Propagates; the number of a clause that is false, where it meets one.
    pub(crate) fn settle(&mut self) -> Result<Option<u32>, NoMemory>
        requires stands { Stands self.old.base }
        requires equipped { Equipped self.old }
        requires ready { IsReady self.old.base }
        ensures keeps { OnOk result (Keeps self.old self.new) }
        ensures conflict { IfOk result (λ conflict. IfSome conflict (λ number. IsConflict (rows_of self.new.base.clauses) self.new.base.trail number × IsAwake (pairs_of self.new.base.clauses) number)) }
        ensures settled { IfOk result (λ conflict. IfNone conflict (IsPropagated self.new.base)) }
        ensures grows { OnOk result (TrailGrows self.old.base.trail self.new.base.trail) }
    {
        let before = self.base.trail.literals().len();
        let conflict = self.base.settle()?;
        let after = self.base.trail.literals().len();
        self.counts
            .note_propagation(after.saturating_sub(before), conflict.is_some());
        Ok(conflict)
    }

    /// Propagates, and decides one literal.
    fn step(&mut self) -> Result<Step, NoMemory>
        requires stands { Stands self.old.base }
        requires equipped { Equipped self.old }
        requires ready { IsReady self.old.base }
        ensures keeps { OnOk result (Keeps self.old self.new) }
        ensures step { IfOk result (StepIs self.old self.new) }
        ensures vars { OnOk result (self.new.base.trail.vars ≡ self.old.base.trail.vars) }
    {
        self.base.trail.tell_trail();
        if let Some(number) = self.settle()? {
            return Ok(Step::Conflict(number));
        }
        self.base.trail.tell_trail();
        let Some(literal) = pick(&mut self.order, self.phases.as_slice(), &self.base.trail) else {
            return Ok(Step::Complete);
        };
        self.counts.note_decision();
        self.base.trail.decide(literal)?;
        self.base.trail.tell_trail();
        Ok(Step::Decided)
    }

    /// Learns from a false clause, and goes back to the level at which what it learned forces a literal.
    pub(crate) fn learn(&mut self, alloc: Global, conflict: u32) -> Result<(), NoMemory>
        requires stands { Stands self.old.base }
        requires equipped { Equipped self.old }
        requires conflict { IsConflict (rows_of self.old.base.clauses) self.old.base.trail conflict }
        requires awake { IsAwake (pairs_of self.old.base.clauses) conflict }
        requires level { 0 < length self.old.base.trail.starts }
        ensures goes_on { OnOk result (GoesOn self.old self.new) }
        ensures ready { OnOk result (IsReady self.new.base) }
        ensures entries { OnOk result (length self.new.base.entries ≡ length self.old.base.entries + 1) }
        ensures whole { OnOk result (self.new.base.whole ≡ self.old.base.whole) }
    {
        self.base.trail.tell_trail();
        let base = &self.base;
        let learned = analyse(
            alloc,
            &base.clauses,
            &base.trail,
            &mut self.order,
            &mut self.marks,
            conflict,
        )?;
        let level = learned.level;
        let literals = learned.literals;
        let chain = learned.chain;
        let levels = levels_of(&self.base.trail, literals.as_slice());
        self.ranks.note(&chain);
        self.base.entries.push(chain.start, chain.steps.as_slice())?;
        self.go_back(level)?;
        let row = literals.as_slice();
        let first = row[0];
        let second = second_of(row);
        self.keep(row, first, second, levels)?;
        Ok(())
    }

    /// Puts a learned clause behind the others, watches two of its literals, and makes the first of these true by it.
    fn keep(&mut self, row: &[Lit], first: Lit, second: Lit, levels: u32) -> Result<(), NoMemory>
        requires first { place_of first < length self.old.base.watches.lists.items }
        requires second { place_of second < length self.old.base.watches.lists.items }
        requires place { place_of first < 2 * self.old.base.trail.vars + 2 }
        requires unassigned { has self.old.base.trail.literals first ≡ false }
        requires possible { has self.old.base.trail.literals (negated first) ≡ false }
        ensures clauses { OnOk result (self.new.base.clauses ≡ self.old.base.clauses ++ awake_clause row.now ∷ []) }
        ensures lists { OnOk result (self.new.base.watches.lists.items ≡ put_pair self.old.base.watches.lists.items first second (length (rows_of self.old.base.clauses))) }
        ensures trail { OnOk result (self.new.base.trail ≡ record self.old.base.trail {
          literals = self.old.base.trail.literals ++ first ∷ [];
          reasons = self.old.base.trail.reasons ++ Some (length (rows_of self.old.base.clauses)) ∷ [];
        }) }
        ensures head { OnOk result (self.new.base.head ≡ self.old.base.head) }
        ensures entries { OnOk result (self.new.base.entries ≡ self.old.base.entries) }
        ensures formula { OnOk result (self.new.base.formula.now ≡ self.old.base.formula.now) }
        ensures whole { OnOk result (self.new.base.whole ≡ self.old.base.whole) }
        ensures tables { OnOk result ((self.new.order ≡ self.old.order) × (self.new.phases ≡ self.old.phases) × (self.new.marks ≡ self.old.marks)) }
    {
        let number = self.base.clauses.len();
        self.base.clauses.push(row)?;
        watch_pair(&mut self.base.watches, number, first, second)?;
        self.ranks.set(number, levels)?;
        self.base.trail.assign(first, number);
        Ok(())
    }

    /// Goes back to level 0.
    pub(crate) fn restart(&mut self) -> Result<(), NoMemory>
        requires stands { Stands self.old.base }
        requires equipped { Equipped self.old }
        requires ready { IsReady self.old.base }
        ensures keeps { OnOk result (Keeps self.old self.new) }
        ensures ready { OnOk result (IsReady self.new.base) }
    {
        self.base.trail.tell_trail();
        if self.base.trail.level() == 0 {
            return Ok(());
        }
        self.counts.note_restart();
        self.go_back(0)?;
        Ok(())
    }

    /// Takes back what came after this level.
    fn go_back(&mut self, level: usize) -> Result<(), NoMemory>
        requires level { level < length self.old.base.trail.starts }
        requires equipped { Equipped self.old }
        ensures trail { OnOk result (self.new.base.trail ≡ cut_back self.old.base.trail level) }
        ensures head { OnOk result (self.new.base.head ≡ level_start self.old.base.trail.starts level) }
        ensures clauses { OnOk result (self.new.base.clauses ≡ self.old.base.clauses) }
        ensures watches { OnOk result (self.new.base.watches ≡ self.old.base.watches) }
        ensures entries { OnOk result (self.new.base.entries ≡ self.old.base.entries) }
        ensures formula { OnOk result (self.new.base.formula.now ≡ self.old.base.formula.now) }
        ensures whole { OnOk result (self.new.base.whole ≡ self.old.base.whole) }
        ensures equipped { OnOk result (Equipped self.new) }
    {
        let start = self.base.trail.start(level);
        let undone = &self.base.trail.literals()[start..];
        release(&mut self.order, &mut self.phases, undone)?;
        self.base.trail.back_to(level);
        self.base.head = start;
        Ok(())
    }
}

/// The tables of the heuristics for the variables up to `vars`, those of `first` to be decided before others.
fn tables(
    alloc: Global,
    vars: u32,
    first: &[u32],
) -> Result<(ActivityOrder, Vec<bool>, Marks), NoMemory>
    ensures { IfOk result (λ tables. IsEquipped vars tables.0 tables.1.items tables.2) }
{
    let order = ActivityOrder::new(alloc, vars, first)?;
    let phases = vec![in alloc; FIRST_PHASE; vars as usize + 1]?;
    let marks = Marks::new(alloc, vars)?;
    Ok((order, phases, marks))
}

/// Keeps the signs of literals that lose their values, and lets their variables be picked again.
fn release(
    order: &mut ActivityOrder,
    phases: &mut Vec<bool>,
    undone: &[Lit],
) -> Result<(), NoMemory>
    requires phases { length phases.old.items ≡ order.old + 1 }
    requires within { (l : Literal) → has undone.now l ≡ true → place_of l < 2 * order.old + 2 }
    ensures order { order.new ≡ order.old }
    ensures phases { length phases.new.items ≡ length phases.old.items }
{
    for literal in undone {
        let variable = literal.variable();
        phases[variable as usize] = literal.is_positive();
        order.insert(variable)?;
    }
    Ok(())
}

/// What a step of the search came to.
enum Step {
    /// The clause of this number is false.
    Conflict(u32),
    /// All variables have a value.
    Complete,
    /// A level began.
    Decided,
}
