//! Clauses: their literals in order, each once.

ghost use Rattle.std.specs.Prelude.{◌≡◌, ◌≤◌, [], true, OnOk, IfOk};
ghost use Rattle.kb_chain.specs.Literal.{Literal, has, place_of};
ghost use Rattle.kb_chain.specs.Clause.{IsOrdered, IsInPlaceOrder, clause_of};
ghost use Rattle.kb_chain.specs.Cnf.{is_within};

use crate::NoMemory;
use crate::literal::Lit;
use smallvec::SmallVec;
use std::alloc::Global;
use std::marker::Model;

/// How many literals a clause keeps with no allocation.
const INLINE: usize = 4;

/// A disjunction of literals, each once, by rising variable and the positive one first. It may hold both literals of a variable.
#[derive(Clone, Drop)]
pub struct Clause {
    kept: SmallVec<Lit, INLINE>,
}

impl Model for Clause {
    ghost use Rattle.std.specs.Prelude.{List};
    ghost use Rattle.kb_chain.specs.Literal.{Literal};
    ghost use Rattle.kb_chain.specs.Clause.{IsOrdered};

    ghost Value = { List Literal };

    ghost view = { λ c. c.kept.items };

    ghost invariant = { λ c. IsOrdered c.kept.items };
}

impl Clause {
    /// The clause without literals, which nothing makes true.
    pub fn empty(alloc: Global) -> Clause
        ensures { result ≡ [] }
    {
        Clause {
            kept: SmallVec::new(alloc),
        }
    }

    /// The clause of these literals, in any order.
    pub fn from_literals(alloc: Global, literals: &[Lit]) -> Result<Clause, NoMemory>
        ensures { IfOk result (λ clause. clause ≡ clause_of literals.now) }
    {
        let sorted = sorted_by_place(alloc, literals)?;
        Clause::from_sorted(alloc, sorted.as_slice())
    }

    /// The clause of literals that stand by their places.
    fn from_sorted(alloc: Global, sorted: &[Lit]) -> Result<Clause, NoMemory>
        requires { IsInPlaceOrder sorted.now }
        ensures { IfOk result (λ clause. clause ≡ clause_of sorted.now) }
    {
        let mut kept = SmallVec::with_capacity(alloc, sorted.len())?;
        for literal in sorted {
            if !ends_with(kept.as_slice(), *literal) {
                kept.push(*literal)?;
            }
        }
        Ok(Clause { kept })
    }

    pub fn copied(&self, alloc: Global) -> Result<Clause, NoMemory>
        ensures { IfOk result (λ clause. clause ≡ self.now) }
    {
        let _ordered = &self.kept;
        let kept = SmallVec::from_slice(alloc, self.kept.as_slice())?;
        Ok(Clause { kept })
    }

    pub fn literals(&self) -> &[Lit]
        ensures value { result.now ≡ self.now }
        ensures ordered { IsOrdered self.now }
    {
        self.kept.as_slice()
    }

    pub fn contains(&self, literal: Lit) -> bool
        ensures { result ≡ has self.now literal }
    {
        let place = literal.place();
        self.kept.as_slice().iter().any(|l| place == l.place())
    }

    /// Whether the variables of all literals are at most `vars`.
    pub fn is_within(&self, vars: u32) -> bool
        ensures { result ≡ is_within vars self.now }
    {
        self.kept.as_slice().iter().all(|l| l.variable() <= vars)
    }
}

// With no allocation where the literals are few.
fn sorted_by_place(alloc: Global, literals: &[Lit]) -> Result<SmallVec<Lit, INLINE>, NoMemory>
    ensures same { IfOk result (λ sorted. (l : Literal) → has sorted.items l ≡ has literals.now l) }
    ensures rising { IfOk result (λ sorted. IsInPlaceOrder sorted.items) }
{
    let mut sorted = SmallVec::from_slice(alloc, literals)?;
    sort_by_place(alloc, sorted.as_mut_slice())?;
    Ok(sorted)
}

/// Sorts by place. The literals of a clause stand in runs that rise, one for each clause that it was resolved from.
fn sort_by_place(alloc: Global, literals: &mut [Lit]) -> Result<(), NoMemory>
    ensures same { OnOk result ((l : Literal) → has literals.new l ≡ has literals.old l) }
    ensures rising { OnOk result (IsInPlaceOrder literals.new) }
{
    literals.sort_by_key(alloc, |l| l.place())?;
    Ok(())
}

/// Whether ordered literals, none of which comes after this one, end with it.
fn ends_with(ordered: &[Lit], literal: Lit) -> bool
    requires ordered { IsOrdered ordered.now }
    requires last { (l : Literal) → has ordered.now l ≡ true → place_of l ≤ place_of literal }
    ensures { result ≡ has ordered.now literal }
{
    match ordered.last() {
        Some(last) => last.place() == literal.place(),
        None => false,
    }
}
