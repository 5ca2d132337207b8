//! The clauses behind a header.
ghost use Rattle.std.specs.Prelude.{◌≡◌, ◌<◌, ◌≤◌, ◌^◌, ◌++◌, ◌∷◌, [], List, ℕ, map, OnOk, IfErr, IfSome, IsNone, length, ◌==◌, ◌≢◌};
ghost use Rattle.kb_chain.specs.Clause.{clause_of};
ghost use Rattle.kb_chain.specs.Cnf.{IsWithin};

use crate::NoMemory;
use crate::numbers::{literal_within, read_number};
use crate::refusal::{Cause, ReadingStop};
use kb_chain::{Clause, Formula, Lit};
use std::alloc::Global;

/// The clauses that are read, of how many, and the literals of the next one.
#[derive(Drop)]
pub struct Body {
    pub formula: Formula,
    pub count: u32,
    pub literals: Vec<Lit>,
    ghost small: { formula.vars < 2 ^ 31 },
    ghost within: { IsWithin formula.vars literals.items },
}

impl Body {
    ghost use Rattle.kb_dimacs_text.specs.Fronts.{HoldsWords, AreFine, StopsAtWords};

    /// Nothing behind a header.
    pub fn new(alloc: Global, vars: u32, count: u32) -> Body
        requires vars { vars < 2 ^ 31 }
        requires count { count < 2 ^ 31 }
        ensures vars { result.formula.vars ≡ vars }
        ensures count { result.count ≡ count }
        ensures holds { HoldsWords result [] }
    {
        Body {
            formula: Formula::new(alloc, vars),
            count,
            literals: Vec::new(alloc),
        }
    }

    /// Whether all clauses that were announced are read.
    pub fn is_full(&self) -> bool
        ensures { result ≡ (length self.now.formula.clauses == self.now.count) }
    {
        self.formula.clauses().len() == self.count as usize
    }

    /// The formula, if it is whole.
    pub fn whole(self) -> Option<Formula>
        ensures some { IfSome result (λ formula. (formula ≡ self.formula) × (length self.formula.clauses ≡ self.count)) }
        ensures none { IsNone result → length self.formula.clauses ≢ self.count }
    {
        if !self.is_full() {
            return None;
        }
        Some(self.formula)
    }

    /// Reads the words of a line.
    pub fn read_words(&mut self, alloc: Global, words: &[&[u8]]) -> Result<(), ReadingStop>
        ensures ok { OnOk result ((read : List (List ℕ)) → HoldsWords self.old read → HoldsWords self.new (read ++ map (λ w. w.now) words.now)) }
        ensures vars { self.new.formula.vars ≡ self.old.formula.vars }
        ensures count { self.new.count ≡ self.old.count }
        ensures bad { IfErr result (StopsAtWords self.old (map (λ w. w.now) words.now)) }
    {
        for word in words {
            self.read_word(alloc, word)?;
        }
        Ok(())
    }

    /// Reads a word: a literal, or the end of a clause.
    fn read_word(&mut self, alloc: Global, word: &[u8]) -> Result<(), ReadingStop>
        ensures ok { OnOk result ((read : List (List ℕ)) → HoldsWords self.old read → HoldsWords self.new (read ++ word.now ∷ [])) }
        ensures fine { OnOk result ((read : List (List ℕ)) → HoldsWords self.old read
            → AreFine self.old.formula.vars self.old.count read (word.now ∷ [])) }
        ensures vars { self.new.formula.vars ≡ self.old.formula.vars }
        ensures count { self.new.count ≡ self.old.count }
        ensures bad { IfErr result (StopsAtWords self.old (word.now ∷ [])) }
    {
        if self.is_full() {
            return Err(ReadingStop::Bad(Cause::MoreClauses));
        }
        let Some(number) = read_number(word) else {
            return Err(ReadingStop::Bad(Cause::NoNumber));
        };
        if number == 0 {
            return Ok(self.end_clause(alloc)?);
        }
        let Some(literal) = literal_within(self.formula.vars(), number) else {
            return Err(ReadingStop::Bad(Cause::HighVariable));
        };
        Ok(self.add_literal(literal)?)
    }

    /// Puts a literal behind the others of the next clause.
    fn add_literal(&mut self, literal: Lit) -> Result<(), NoMemory>
        requires { literal.variable ≤ self.old.formula.vars }
        ensures literals { OnOk result (self.new.literals.items ≡ self.old.literals.items ++ literal ∷ []) }
        ensures formula { self.new.formula ≡ self.old.formula }
        ensures count { self.new.count ≡ self.old.count }
    {
        self.literals.push(literal)?;
        Ok(())
    }

    /// Puts the clause of the literals behind the others.
    fn end_clause(&mut self, alloc: Global) -> Result<(), NoMemory>
        ensures clauses { OnOk result (self.new.formula.clauses ≡ self.old.formula.clauses ++ clause_of self.old.literals.items ∷ []) }
        ensures literals { OnOk result (self.new.literals.items ≡ []) }
        ensures vars { self.new.formula.vars ≡ self.old.formula.vars }
        ensures count { self.new.count ≡ self.old.count }
    {
        let clause = Clause::from_literals(alloc, self.literals.as_slice())?;
        self.formula.add(clause)?;
        self.literals.clear();
        Ok(())
    }
}
