//! The literals that unit propagation reaches, in their order.

ghost use Rattle.std.specs.Prelude.{◌≡◌, ◌+◌, ◌*◌, ◌<◌, ◌≤◌, [], length, take, ◌-◌, OnOk, IfOk};
ghost use Rattle.kb_chain.specs.Literal.{Literal, place_of, has};
ghost use Rattle.kb_chain.specs.Working.{AreWithin};
ghost use Rattle.kb_chain.specs.Index.{joined};

use crate::NoMemory;
use crate::literal::Lit;
use crate::marks::is_marked;
use std::alloc::Global;
use std::marker::Model;

/// Literals in the order in which unit propagation reaches them.
#[derive(Drop)]
pub(crate) struct Trail {
    marks: Vec<bool>,
    reached: Vec<Lit>,
}

impl Model for Trail {
    ghost use Rattle.std.specs.Prelude.{length};
    ghost use Rattle.kb_chain.specs.Trail.{Reached, IsMarked};

    ghost Value = { Reached };

    ghost view = { λ t. record {
      places = length t.marks.items;
      literals = t.reached.items;
    } };

    ghost invariant = { λ t. IsMarked t.marks.items t.reached.items };
}

impl Trail {
    /// No literals of the variables up to `vars`.
    pub(crate) fn new(alloc: Global, vars: u32) -> Result<Trail, NoMemory>
        ensures places { IfOk result (λ t. t.places ≡ 2 * vars + 2) }
        ensures literals { IfOk result (λ t. t.literals ≡ []) }
    {
        let marks = vec![in alloc; false; 2 * vars as usize + 2]?;
        let reached = Vec::new(alloc);
        Ok(Trail { marks, reached })
    }

    pub(crate) fn contains(&self, literal: Lit) -> bool
        ensures { result ≡ has self.now.literals literal }
    {
        is_marked(self.marks.as_slice(), literal.place())
    }

    pub(crate) fn literals(&self) -> &[Lit]
        ensures value { result.now ≡ self.now.literals }
        ensures bound { length self.now.literals ≤ self.now.places }
        ensures within { AreWithin self.now.places self.now.literals }
    {
        self.reached.as_slice()
    }

    /// Puts a literal behind the others, if it is not there yet.
    pub(crate) fn insert(&mut self, literal: Lit) -> Result<(), NoMemory>
        requires { place_of literal < self.old.places }
        ensures ok { OnOk result (self.new.literals ≡ joined self.old.literals literal) }
        ensures places { self.new.places ≡ self.old.places }
    {
        let place = literal.place();
        if is_marked(self.marks.as_slice(), place) {
            return Ok(());
        }
        self.reached.push(literal)?;
        self.marks[place] = true;
        Ok(())
    }

    /// Goes back to the first `length` literals.
    pub(crate) fn go_back(&mut self, length: usize)
        ensures literals { self.new.literals ≡ take length self.old.literals }
        ensures places { self.new.places ≡ self.old.places }
    {
        while self.reached.len() > length {
            self.remove_last();
        }
    }

    /// Takes away the last literal.
    fn remove_last(&mut self)
        ensures literals { self.new.literals ≡ take (length self.old.literals - 1) self.old.literals }
        ensures places { self.new.places ≡ self.old.places }
    {
        if let Some(literal) = self.reached.pop() {
            self.marks[literal.place()] = false;
        }
    }
}
