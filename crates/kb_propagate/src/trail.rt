//! The trail: the true literals in the order in which they became true, with their reasons and levels. Under proof.
ghost use Rattle.std.specs.Prelude.{◌≡◌, ℕ, ◌+◌, ◌*◌, ◌-◌, ◌<◌, ◌≤◌, true, false, [], ◌∷◌, ◌++◌, length, take, slice_get, Some, None, OnOk, IfOk};
ghost use Rattle.kb_chain.specs.Literal.{has, negated, place_of};
ghost use Rattle.kb_chain.specs.Trail.{IsMarked};
ghost use Rattle.kb_propagate.specs.Trail.{Assigned, IsTrail, level_start, before_level};
ghost use Rattle.kb_propagate.specs.Tables.{IsDistinct};

use crate::NoMemory;
use kb_chain::Lit;
use std::alloc::Global;
use std::marker::Model;

/// The true literals in the order in which they became true, each with its position, with the number of the clause that
/// forced it, if it is no decision, and with the levels: each begins with a decision. Level 0 comes before the first.
#[derive(Drop)]
pub struct Trail {
    limit: u32,
    marks: Vec<bool>,
    reached: Vec<Lit>,
    forced_by: Vec<Option<u32>>,
    positions: Vec<usize>,
    count: usize,
    begins: Vec<usize>,
}

impl Model for Trail {
    ghost use Rattle.std.specs.Prelude.{take};
    ghost use Rattle.kb_propagate.specs.Trail.{Assigned};
    ghost use Rattle.kb_propagate.specs.Tables.{IsTabled};

    ghost Value = { Assigned };

    ghost view = { λ t. record {
      vars = t.limit;
      literals = take t.count t.reached.items;
      reasons = take t.count t.forced_by.items;
      starts = t.begins.items;
    } };

    ghost invariant = { λ t. IsTabled t.limit t.marks.items t.reached.items t.forced_by.items t.positions.items t.count t.begins.items };
}

impl Trail {
    /// No literals of the variables up to `vars`, at level 0.
    pub fn new(alloc: Global, vars: u32) -> Result<Trail, NoMemory>
        ensures { IfOk result (λ t. t ≡ record { vars = vars; literals = []; reasons = []; starts = [] }) }
    {
        let places = 2 * vars as usize + 2;
        let marks = vec![in alloc; false; places]?;
        let reached = vec![in alloc; Lit::default(); places]?;
        let forced_by = vec![in alloc; None; places]?;
        let positions = vec![in alloc; 0; vars as usize + 1]?;
        let begins = Vec::new(alloc);
        Ok(Trail {
            limit: vars,
            marks,
            reached,
            forced_by,
            positions,
            count: 0,
            begins,
        })
    }

    /// Nothing: it tells a proof what holds of each trail.
    pub fn tell_trail(&self)
        ensures { IsTrail self.now }
    {
        let _marks = &self.marks;
    }

    /// Nothing: it tells a proof that each literal stands once.
    pub fn tell_once(&self)
        ensures { IsDistinct self.now.literals }
    {
        let _marks = &self.marks;
    }

    pub fn vars(&self) -> u32
        ensures { result ≡ self.now.vars }
    {
        self.limit
    }

    pub fn is_true(&self, literal: Lit) -> bool
        ensures { result ≡ has self.now.literals literal }
    {
        self.marks.get(literal.place()).copied().unwrap_or(false)
    }

    pub fn is_false(&self, literal: Lit) -> bool
        ensures { result ≡ has self.now.literals (negated literal) }
    {
        self.is_true(literal.negated())
    }

    pub fn literals(&self) -> &[Lit]
        ensures value { result.now ≡ self.now.literals }
        ensures trail { IsTrail self.now }
    {
        &self.reached[..self.count]
    }

    /// The number of the level: that of the decisions.
    pub fn level(&self) -> usize
        ensures { result ≡ length self.now.starts }
    {
        self.begins.len()
    }

    /// How many literals were there when the level after this one began.
    pub fn start(&self, level: usize) -> usize
        requires { level < length self.now.starts }
        ensures value { result ≡ level_start self.now.starts level }
        ensures bound { result < length self.now.literals }
    {
        self.begins[level]
    }

    /// The position of a true literal.
    pub fn position(&self, literal: Lit) -> usize
        requires { has self.now.literals literal ≡ true }
        ensures value { slice_get self.now.literals result ≡ Some literal }
        ensures bound { result < length self.now.literals }
    {
        self.positions[literal.variable() as usize]
    }

    /// The number of the clause that forced the literal at a position; none for a decision.
    pub fn reason(&self, position: usize) -> Option<u32>
        requires { position < length self.now.literals }
        ensures { slice_get self.now.reasons position ≡ Some result }
    {
        self.forced_by[position]
    }

    /// Puts a literal behind the others that the clause of this number forces.
    pub fn assign(&mut self, literal: Lit, number: u32)
        requires place { place_of literal < 2 * self.old.vars + 2 }
        requires unassigned { has self.old.literals literal ≡ false }
        requires possible { has self.old.literals (negated literal) ≡ false }
        ensures { self.new ≡ record self.old {
          literals = self.old.literals ++ literal ∷ [];
          reasons = self.old.reasons ++ Some number ∷ [];
        } }
    {
        self.marks[literal.place()] = true;
        self.positions[literal.variable() as usize] = self.count;
        self.reached[self.count] = literal;
        self.forced_by[self.count] = Some(number);
        self.count += 1;
    }

    /// Begins a level with this literal.
    pub fn decide(&mut self, literal: Lit) -> Result<(), NoMemory>
        requires place { place_of literal < 2 * self.old.vars + 2 }
        requires unassigned { has self.old.literals literal ≡ false }
        requires possible { has self.old.literals (negated literal) ≡ false }
        ensures { OnOk result (self.new ≡ record self.old {
          literals = self.old.literals ++ literal ∷ [];
          reasons = self.old.reasons ++ None ∷ [];
          starts = self.old.starts ++ length self.old.literals ∷ [];
        }) }
    {
        self.begins.push(self.count)?;
        self.marks[literal.place()] = true;
        self.positions[literal.variable() as usize] = self.count;
        self.reached[self.count] = literal;
        self.forced_by[self.count] = None;
        self.count += 1;
        Ok(())
    }

    /// Takes back what came after this level.
    pub fn back_to(&mut self, level: usize)
        requires { level < length self.old.starts }
        ensures { self.new ≡ record self.old {
          literals = before_level self.old level;
          reasons = take (level_start self.old.starts level) self.old.reasons;
          starts = take level self.old.starts;
        } }
    {
        let cut = self.begins[level];
        unmark(self.marks.as_mut_slice(), &self.reached[..self.count], cut);
        self.count = cut;
        self.begins.truncate(level);
    }
}

/// Takes the marks of all literals but the first `kept` away.
fn unmark(marks: &mut [bool], literals: &[Lit], kept: usize)
    requires marked { IsMarked marks.old literals.now }
    requires distinct { IsDistinct literals.now }
    requires kept { kept ≤ length literals.now }
    ensures { IsMarked marks.new (take kept literals.now) }
{
    let mut count = literals.len();
    while count > kept {
        count -= 1;
        let place = literals[count].place();
        if place < marks.len() {
            marks[place] = false;
        }
    }
}
