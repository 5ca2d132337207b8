//! The clause database: all clauses by number, in one table. Under proof: what was put in is there, and the two literals that
//! stand first in a row are those that a clause watches.
ghost use Rattle.std.specs.Prelude.{◌≡◌, ◌<◌, ◌≤◌, [], ◌∷◌, ◌++◌, List, length, take, slice_get, slice_set, Some, OnOk};
ghost use Rattle.std.specs.List.{swap};
ghost use Rattle.kb_chain.specs.Literal.{Literal};
ghost use Rattle.kb_propagate.specs.Rows.{StoredClause, rows_of, stored_of, awake_clause, EndWithin, AreApart, IsNamed, AreNamed};
ghost use Rattle.kb_propagate.specs.Forgetting.{is_awake, asleep, deleted};

use crate::NoMemory;
use crate::span::Span;
use kb_chain::Lit;
use std::alloc::Global;
use std::marker::Model;

/// Where the literals of a clause stand, and whether it is awake: one that was let go is watched no longer.
#[derive(Clone, Copy, Drop)]
struct Slot {
    span: Span,
    awake: bool,
}

/// The stored literals of the clauses of the formula and, behind them, of the learned ones, by the numbers that a log gives
/// them. The literals of all clauses stand in one table, one clause after the other. A clause watches the first two of them,
/// or its only one.
#[derive(Drop)]
pub struct Clauses {
    flat: Vec<Lit>,
    slots: Vec<Slot>,
}

impl Model for Clauses {
    ghost use Rattle.std.specs.Prelude.{List, ◌<◌, ◌^◌, length};
    ghost use Rattle.kb_propagate.specs.Rows.{StoredClause, AreNamed, AreApart, EndWithin, rows_of, stored_of};

    ghost Value = { List StoredClause };

    ghost view = { λ c. stored_of c.flat.items c.slots.items };

    ghost invariant = { λ c. record {
      few : length c.slots.items < 2 ^ 32;
      within : EndWithin c.flat.items c.slots.items;
      apart : AreApart c.slots.items;
      named : AreNamed (rows_of (stored_of c.flat.items c.slots.items));
    } };
}

impl Clauses {
    pub fn new(alloc: Global) -> Clauses
        ensures { result ≡ [] }
    {
        Clauses {
            flat: Vec::new(alloc),
            slots: Vec::new(alloc),
        }
    }

    /// Nothing: it tells a proof what holds of all clauses.
    pub fn tell_named(&self)
        ensures { AreNamed (rows_of self.now) }
    {
        let _slots = &self.slots;
    }

    pub fn len(&self) -> u32
        ensures { result ≡ length (rows_of self.now) }
    {
        self.slots.len() as u32
    }

    pub fn literals(&self, number: u32) -> &[Lit]
        requires { number < length (rows_of self.now) }
        ensures { slice_get (rows_of self.now) number ≡ Some result.now }
    {
        let span = self.slots[number as usize].span;
        &self.flat[span.start as usize..span.end as usize]
    }

    /// Whether the clause of a number is watched still.
    pub fn is_awake(&self, number: u32) -> bool
        ensures { result ≡ is_awake (slice_get self.now number) }
    {
        match self.slots.get(number as usize) {
            Some(slot) => slot.awake,
            None => false,
        }
    }

    /// Puts a clause behind the others, if numbers of 32 bits can count one more, and its literals.
    pub fn push(&mut self, literals: &[Lit]) -> Result<(), NoMemory>
        ensures { OnOk result (self.new ≡ self.old ++ awake_clause literals.now ∷ []) }
    {
        named(literals);
        let start = self.flat.len();
        let end = start + literals.len();
        if end > u32::MAX as usize || self.slots.len() >= u32::MAX as usize {
            return Err(NoMemory);
        }
        self.flat.extend_from_slice(literals)?;
        self.slots.push(Slot {
            span: Span {
                start: start as u32,
                end: end as u32,
            },
            awake: true,
        })?;
        Ok(())
    }

    /// Lets two literals of a clause change their places.
    pub fn swap(&mut self, number: u32, i: usize, j: usize)
        requires number { number < length (rows_of self.old) }
        requires inside { (row : List Literal) → slice_get (rows_of self.old) number ≡ Some row → (i < length row) × (j < length row) }
        ensures { (clause : StoredClause) → slice_get self.old number ≡ Some clause
            → self.new ≡ slice_set self.old number (record clause { literals = swap clause.literals i j }) }
    {
        let span = self.slots[number as usize].span;
        let first = span.place(i);
        let second = span.place(j);
        self.flat.swap(first, second);
    }

    /// Notes that a clause is watched no longer.
    pub fn let_go(&mut self, number: u32)
        ensures { self.new ≡ asleep self.old number }
    {
        let place = number as usize;
        if place >= self.slots.len() {
            return;
        }
        let span = self.slots[place].span;
        self.slots[place] = Slot { span, awake: false };
    }

    /// Deletes a clause: nothing is left of it but its number.
    pub fn delete(&mut self, number: u32)
        ensures { self.new ≡ deleted self.old number }
    {
        let place = number as usize;
        if place >= self.slots.len() {
            return;
        }
        let span = self.slots[place].span.emptied();
        self.slots[place] = Slot { span, awake: false };
    }

    /// Moves the literals of all clauses together, over the gaps that deleted ones left.
    pub fn compact(&mut self)
        ensures { self.new ≡ self.old }
    {
        let end = move_together(&mut self.flat, &mut self.slots);
        self.flat.truncate(end);
    }
}

/// Moves the literals of each clause to those of the clause before it, and says where the last ones end.
fn move_together(flat: &mut Vec<Lit>, slots: &mut Vec<Slot>) -> usize
    requires within { EndWithin flat.old.items slots.old.items }
    requires apart { AreApart slots.old.items }
    ensures end { result ≤ length flat.new.items }
    ensures within { EndWithin (take result flat.new.items) slots.new.items }
    ensures apart { AreApart slots.new.items }
    ensures count { length slots.new.items ≡ length slots.old.items }
    ensures stored { stored_of (take result flat.new.items) slots.new.items ≡ stored_of flat.old.items slots.old.items }
{
    let mut end: u32 = 0;
    for number in 0..slots.len() {
        let span = slots[number].span;
        flat.copy_within(span.start as usize..span.end as usize, end as usize);
        let later = span.earlier(end);
        end = later.end;
        slots[number].span = later;
    }
    end as usize
}

/// Nothing: it tells a proof which variables literals have.
fn named(literals: &[Lit])
    ensures { IsNamed literals.now }
{
    for literal in literals {
        let _variable = literal.variable();
    }
}
