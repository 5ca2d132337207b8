//! Conflict analysis: the clause of the first unique implication point (Marques-Silva and Sakallah, 1999), with local
//! minimisation (Sörensson and Biere, 2009), and the refutation from a conflict at level 0. Under proof: the chain of each
//! clause gives it.
ghost use Rattle.std.specs.Prelude.{◌≡◌, ℕ, ◌+◌, ◌-◌, ◌<◌, ◌≤◌, ◌==◌, ◌&&◌, ◌||◌, ◌⊎◌, not, true, false, List, [], ◌∷◌, length, take, slice_get, Some, None, OnOk, IfOk, IfSome, MatchOption};
ghost use Rattle.std.specs.Bool.{OnTrue};
ghost use Rattle.std.specs.List.{list_any};
ghost use Rattle.std.specs.List.Sorted.{IsNonDecreasingBy};
ghost use Rattle.kb_chain.specs.Literal.{Literal, has, negated};
ghost use Rattle.kb_chain.specs.Propagation.{all_negated};
ghost use Rattle.kb_chain.specs.Index.{has_number};
ghost use Rattle.kb_chain.specs.Chains.{derived};
ghost use Rattle.kb_chain.specs.Needed.{cites};
ghost use Rattle.kb_propagate.specs.Trail.{before_level, HasReasons};
ghost use Rattle.kb_propagate.specs.Store.{IsJustified};
ghost use Rattle.kb_propagate.specs.Rows.{rows_of};
ghost use Rattle.kb_propagate.specs.Base.{IsConflict};
ghost use Rattle.kb_sat.specs.Search.{IsLearned, IsRefuting};
ghost use Rattle.kb_sat.specs.Analysis.{is_seen, is_pivot, AreFalseBefore, AreMarked, IsClean, MarksOthers, IsLevels, AreCovered, IsReached, IsLastSeen, NoneSeen, ArePut, MayCite, at_position};

use kb_chain::{Chain, Formula, Lit, Row, Store, derive_needed};
use kb_heuristics::{ActivityOrder, level_of};
use kb_propagate::{Clauses, NoMemory, Trail};
use std::alloc::Global;

/// What a conflict teaches: a clause by its chain, without the literals that are false at level 0. The first one becomes true
/// as soon as the search is back at the level; if there are others, the last of them to become false stands next to it.
#[derive(Drop)]
pub(crate) struct Learned {
    pub(crate) chain: Chain,
    pub(crate) literals: Row<Lit>,
    pub(crate) level: usize,
}

/// Where level 0 ends and the last level starts in the trail.
#[derive(Clone, Copy)]
pub(crate) struct Levels {
    pub(crate) zero: usize,
    pub(crate) start: usize,
}

/// The clause so far of an analysis, without what is false at level 0, by marks of its variables.
#[derive(Drop)]
pub(crate) struct Marks {
    /// By variable.
    pub(crate) seen: Vec<bool>,
    /// The positions of those marked below the last level.
    pub(crate) lower: Vec<usize>,
    /// How many of the last level are marked.
    pub(crate) pending: usize,
}

impl Marks {
    /// No marks for the variables up to `vars`.
    pub(crate) fn new(alloc: Global, vars: u32) -> Result<Marks, NoMemory>
        ensures { IfOk result (IsClean vars) }
    {
        let seen = vec![in alloc; false; vars as usize + 1]?;
        let lower = Vec::new(alloc);
        Ok(Marks {
            seen,
            lower,
            pending: 0,
        })
    }

    /// Marks the variables of false literals but the pivot's, unless they are of level 0, and raises their activity.
    fn mark_others(
        &mut self,
        trail: &Trail,
        levels: Levels,
        order: &mut ActivityOrder,
        row: &[Lit],
        pivot: Option<u32>,
    ) -> Result<(), NoMemory>
        requires marked { (end : ℕ) × AreMarked trail.now.vars trail.now.literals levels end self.old
            × AreFalseBefore trail.now.literals end pivot row.now }
        requires order { order.old ≡ trail.now.vars }
        ensures marked { OnOk result ((end : ℕ) → AreMarked trail.now.vars trail.now.literals levels end self.old
            → AreFalseBefore trail.now.literals end pivot row.now → AreMarked trail.now.vars trail.now.literals levels end self.new) }
        ensures marks { OnOk result (MarksOthers trail.now.literals levels pivot row.now self.old.seen.items self.new.seen.items) }
        ensures order { order.new ≡ order.old }
    {
        for literal in row {
            if !is_pivot(pivot, *literal) {
                self.mark(trail, levels, order, *literal)?;
            }
        }
        Ok(())
    }

    /// Marks the variable of a false literal.
    fn mark(
        &mut self,
        trail: &Trail,
        levels: Levels,
        order: &mut ActivityOrder,
        literal: Lit,
    ) -> Result<(), NoMemory>
        requires marked { (end : ℕ) × AreMarked trail.now.vars trail.now.literals levels end self.old
            × AreFalseBefore trail.now.literals end None (literal ∷ []) }
        requires order { order.old ≡ trail.now.vars }
        ensures marked { OnOk result ((end : ℕ) → AreMarked trail.now.vars trail.now.literals levels end self.old
            → AreFalseBefore trail.now.literals end None (literal ∷ []) → AreMarked trail.now.vars trail.now.literals levels end self.new) }
        ensures marks { OnOk result (MarksOthers trail.now.literals levels None (literal ∷ []) self.old.seen.items self.new.seen.items) }
        ensures order { order.new ≡ order.old }
    {
        let _literals = trail.literals();
        trail.tell_once();
        let position = trail.position(literal.negated());
        if position < levels.zero {
            return Ok(());
        }
        let variable = literal.variable();
        if self.seen[variable as usize] {
            return Ok(());
        }
        self.seen[variable as usize] = true;
        order.bump(variable);
        if position < levels.start {
            self.lower.push(position)?;
        } else {
            self.pending += 1;
        }
        Ok(())
    }

    /// Whether the variable of a false literal is marked or of level 0.
    fn covers(&self, trail: &Trail, levels: Levels, literal: Lit) -> bool
        requires table { length self.now.seen.items ≡ trail.now.vars + 1 }
        requires on_trail { has trail.now.literals (negated literal) ≡ true }
        ensures { OnTrue result ((is_seen self.now.seen.items literal.variable ≡ true)
            ⊎ (has (take levels.zero trail.now.literals) (negated literal) ≡ true)) }
    {
        trail.tell_trail();
        if self.seen[literal.variable() as usize] {
            return true;
        }
        trail.position(literal.negated()) < levels.zero
    }
}

/// The highest marked position below one.
fn last_seen(trail: &Trail, seen: &[bool], end: usize) -> Option<usize>
    requires table { length seen.now ≡ trail.now.vars + 1 }
    requires inside { end ≤ length trail.now.literals }
    ensures { MatchOption result (NoneSeen trail.now.literals seen.now end) (IsLastSeen trail.now.literals seen.now end) }
{
    let literals = trail.literals();
    let mut position = end;
    while position > 0 {
        position -= 1;
        if seen[literals[position].variable() as usize] {
            return Some(position);
        }
    }
    None
}

fn is_pivot(pivot: Option<u32>, literal: Lit) -> bool
    ensures { result ≡ is_pivot pivot literal.variable }
{
    match pivot {
        Some(variable) => variable == literal.variable(),
        None => false,
    }
}

/// Learns from a conflict above level 0: the clause of the first unique implication point (Marques-Silva and Sakallah, 1999),
/// without literals that one more resolution takes away (local minimisation, as Sörensson and Biere, 2009, call it).
pub(crate) fn analyse(
    alloc: Global,
    clauses: &Clauses,
    trail: &Trail,
    order: &mut ActivityOrder,
    marks: &mut Marks,
    number: u32,
) -> Result<Learned, NoMemory>
    requires conflict { IsConflict (rows_of clauses.now) trail.now number }
    requires level { 0 < length trail.now.starts }
    requires last { (row : List Literal) → slice_get (rows_of clauses.now) number ≡ Some row
        → all_negated (has (before_level trail.now (length trail.now.starts - 1))) row ≡ false }
    requires justified { (all : List (List Literal)) × IsJustified all (rows_of clauses.now) trail.now }
    requires clean { IsClean trail.now.vars marks.old }
    requires order { order.old ≡ trail.now.vars }
    ensures learned { IfOk result (λ learned. (all : List (List Literal)) → IsJustified all (rows_of clauses.now) trail.now
        → IsLearned all trail.now learned.chain learned.literals learned.level) }
    ensures clean { OnOk result (IsClean trail.now.vars marks.new) }
    ensures order { order.new ≡ order.old }
{
    trail.tell_trail();
    trail.tell_once();
    let levels = Levels {
        zero: trail.start(0),
        start: trail.start(trail.level() - 1),
    };
    order.decay();
    let mut steps = Vec::new(alloc);
    marks.mark_others(trail, levels, order, clauses.literals(number), None)?;
    let point = resolve_level(clauses, trail, levels, order, marks, &mut steps)?;
    let mut literals = Vec::new(alloc);
    literals.push(point.negated())?;
    let highest = minimise(clauses, trail, levels, marks, &mut steps, &mut literals)?;
    let level = match highest {
        Some(position) => level_of(trail, position),
        None => 0,
    };
    Ok(Learned {
        chain: Chain {
            start: number,
            steps: Row::from_vec(steps),
        },
        literals: Row::from_vec(literals),
        level,
    })
}

/// Resolves on literals of the last level, from late to early, until one is left, and gives it.
fn resolve_level(
    clauses: &Clauses,
    trail: &Trail,
    levels: Levels,
    order: &mut ActivityOrder,
    marks: &mut Marks,
    steps: &mut Vec<(u32, u32)>,
) -> Result<Lit, NoMemory>
    requires levels { IsLevels trail.now levels }
    requires marked { AreMarked trail.now.vars trail.now.literals levels (length trail.now.literals) marks.old }
    requires pending { 0 < marks.old.pending }
    requires justified { (all : List (List Literal)) × IsJustified all (rows_of clauses.now) trail.now }
    requires order { order.old ≡ trail.now.vars }
    ensures point { IfOk result (λ point. (p : ℕ) × (levels.start ≤ p) × (slice_get trail.now.literals p ≡ Some point)) }
    ensures reached { IfOk result (λ point. (all : List (List Literal)) (number : ℕ) → IsJustified all (rows_of clauses.now) trail.now
        → IsReached all number steps.old.items trail.now.literals levels.zero (length trail.now.literals) marks.old.seen.items []
        → IsReached all number steps.new.items trail.now.literals levels.zero levels.start marks.new.seen.items (negated point ∷ [])) }
    ensures marked { OnOk result (AreMarked trail.now.vars trail.now.literals levels levels.start marks.new) }
    ensures order { order.new ≡ order.old }
{
    trail.tell_once();
    let mut end = trail.literals().len();
    while let Some(position) = last_seen(trail, marks.seen.as_slice(), end) {
        let literal = trail.literals()[position];
        let variable = literal.variable();
        marks.seen[variable as usize] = false;
        marks.pending -= 1;
        if marks.pending == 0 {
            return Ok(literal);
        }
        let Some(number) = trail.reason(position) else {
            unreachable!()
        };
        steps.push((variable, number))?;
        let row = clauses.literals(number);
        marks.mark_others(trail, levels, order, row, Some(variable))?;
        end = position;
    }
    unreachable!()
}

/// Takes the marked literals from late to early: resolves those away whose reasons add nothing new, and puts the others into
/// the row. It gives the position of the first one that it put there.
fn minimise(
    clauses: &Clauses,
    trail: &Trail,
    levels: Levels,
    marks: &mut Marks,
    steps: &mut Vec<(u32, u32)>,
    row: &mut Vec<Lit>,
) -> Result<Option<usize>, NoMemory>
    requires levels { IsLevels trail.now levels }
    requires marked { AreMarked trail.now.vars trail.now.literals levels levels.start marks.old }
    requires justified { (all : List (List Literal)) × IsJustified all (rows_of clauses.now) trail.now }
    ensures reached { OnOk result ((all : List (List Literal)) (number : ℕ) → IsJustified all (rows_of clauses.now) trail.now
        → IsReached all number steps.old.items trail.now.literals levels.zero levels.start marks.old.seen.items row.old.items
        → IsReached all number steps.new.items trail.now.literals levels.zero levels.zero marks.new.seen.items row.new.items) }
    ensures put { IfOk result (ArePut trail.now.literals levels row.old.items row.new.items) }
    ensures clean { OnOk result (IsClean trail.now.vars marks.new) }
{
    trail.tell_trail();
    trail.tell_once();
    sort(marks.lower.as_mut_slice());
    let mut highest = None;
    while let Some(position) = marks.lower.pop() {
        let literal = trail.literals()[position];
        let variable = literal.variable();
        // No position stands twice, but nothing here relies on it.
        if !marks.seen[variable as usize] {
            continue;
        }
        marks.seen[variable as usize] = false;
        match adds_nothing(clauses, trail, levels, marks, position) {
            Some(number) => steps.push((variable, number))?,
            None => {
                row.push(literal.negated())?;
                highest = highest.or(Some(position));
            }
        }
    }
    Ok(highest)
}

/// Refutes the formula by a conflict at level 0: resolves on all its literals, from late to early. The clauses that this can
/// need are derived again, with what was false at level 0 when they were learned.
pub(crate) fn refute(
    alloc: Global,
    formula: &Formula,
    entries: &[Chain],
    trail: &Trail,
    number: u32,
) -> Result<Chain, NoMemory>
    requires level { trail.now.starts ≡ [] }
    requires conflict { (all : List (List Literal)) × (derived formula.now.clauses entries.now ≡ Some all) × HasReasons all trail.now
        × IsConflict all trail.now number }
    ensures { IfOk result (λ chain. (all : List (List Literal)) → derived formula.now.clauses entries.now ≡ Some all → IsRefuting all chain) }
{
    let numbers = cited_numbers(alloc, trail, number)?;
    let Some(clauses) = derive_needed(alloc, formula, entries, numbers.as_slice())? else {
        unreachable!()
    };
    resolve_all(alloc, &clauses, trail, number)
}

/// The numbers of a false clause and of all reasons.
fn cited_numbers(alloc: Global, trail: &Trail, number: u32) -> Result<Vec<u32>, NoMemory>
    ensures { IfOk result (λ numbers. (k : ℕ) → MayCite trail.now number k → has_number numbers.items k ≡ true) }
{
    trail.tell_trail();
    let mut numbers = Vec::new(alloc);
    numbers.push(number)?;
    for position in 0..trail.literals().len() {
        if let Some(reason) = trail.reason(position) {
            numbers.push(reason)?;
        }
    }
    Ok(numbers)
}

/// Resolves on all literals of a false clause at level 0, from late to early.
fn resolve_all(
    alloc: Global,
    clauses: &Store<'_>,
    trail: &Trail,
    number: u32,
) -> Result<Chain, NoMemory>
    requires level { trail.now.starts ≡ [] }
    requires reasons { HasReasons clauses.now.clauses trail.now }
    requires conflict { IsConflict clauses.now.clauses trail.now number }
    ensures refuting { IfOk result (IsRefuting clauses.now.clauses) }
    ensures cited { IfOk result (λ chain. (k : ℕ) → cites chain k ≡ true → MayCite trail.now number k) }
{
    trail.tell_trail();
    trail.tell_once();
    let mut seen = vec![in alloc; false; trail.vars() as usize + 1]?;
    let mut steps = Vec::new(alloc);
    see_others(seen.as_mut_slice(), literals_of(clauses, number), None);
    let mut end = trail.literals().len();
    while let Some(position) = last_seen(trail, seen.as_slice(), end) {
        let variable = trail.literals()[position].variable();
        let Some(reason) = trail.reason(position) else {
            unreachable!()
        };
        steps.push((variable, reason))?;
        let row = literals_of(clauses, reason);
        see_others(seen.as_mut_slice(), row, Some(variable));
        end = position;
    }
    Ok(Chain {
        start: number,
        steps: Row::from_vec(steps),
    })
}

fn literals_of<'a>(clauses: &'a Store<'_>, number: u32) -> &'a [Lit]
    requires { number < length clauses.now.clauses }
    ensures { slice_get clauses.now.clauses number ≡ Some result.now }
{
    match clauses.get(number) {
        Some(clause) => clause.literals(),
        None => unreachable!(),
    }
}

/// Marks the variables of a clause but the pivot's.
fn see_others(seen: &mut [bool], row: &[Lit], pivot: Option<u32>)
    requires { (l : Literal) → has row.now l ≡ true → l.variable < length seen.old }
    ensures { (v : ℕ) → is_seen seen.new v ≡ (is_seen seen.old v || (list_any (λ (l : Literal). l.variable == v) row.now && not (is_pivot pivot v))) }
{
    for literal in row {
        if !is_pivot(pivot, *literal) {
            seen[literal.variable() as usize] = true;
        }
    }
}

fn sort(positions: &mut [usize])
    ensures same { (p : ℕ) → has_number positions.new p ≡ has_number positions.old p }
    ensures rising { IsNonDecreasingBy (λ p. p) positions.new }
{
    positions.sort_unstable_by_key(|p| *p);
}

/// The reason of a literal, if all its other literals are marked or of level 0.
fn adds_nothing(
    clauses: &Clauses,
    trail: &Trail,
    levels: Levels,
    marks: &Marks,
    position: usize,
) -> Option<u32>
    requires table { length marks.now.seen.items ≡ trail.now.vars + 1 }
    requires inside { position < length trail.now.literals }
    requires justified { (all : List (List Literal)) × IsJustified all (rows_of clauses.now) trail.now }
    ensures reason { IfSome result (λ number. slice_get trail.now.reasons position ≡ Some (Some number)) }
    ensures covered { IfSome result (λ number. (row : List Literal) → slice_get (rows_of clauses.now) number ≡ Some row
        → AreCovered trail.now.literals levels.zero marks.now.seen.items (at_position trail.now.literals position).variable row) }
{
    let number = trail.reason(position)?;
    let variable = trail.literals()[position].variable();
    for literal in clauses.literals(number) {
        if literal.variable() != variable {
            if !marks.covers(trail, levels, *literal) {
                return None;
            }
        }
    }
    Some(number)
}
