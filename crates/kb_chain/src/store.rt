//! The clauses of a formula and of the entries of a log, by their numbers.

ghost use Rattle.std.specs.Prelude.{◌≡◌, [], ◌∷◌, ◌++◌, OnOk, OnErr, IfSome, slice_get};
ghost use Rattle.std.specs.Option.{option_copied};
ghost use Rattle.kb_chain.specs.Cnf.{IsWithin, AllWithin};

use crate::NoMemory;
use crate::clause::Clause;
use crate::formula::Formula;
use std::alloc::Global;
use std::marker::Model;

/// The clauses of a formula and, behind them, those of the entries of a log.
#[derive(Drop)]
pub struct Store<'a> {
    formula: &'a Formula,
    entries: Vec<Clause>,
}

impl<'a> Model for Store<'a> {
    ghost use Rattle.std.specs.Prelude.{◌++◌};
    ghost use Rattle.kb_chain.specs.Cnf.{Cnf, AllWithin};

    ghost Value = { Cnf };

    ghost view = { λ s. record {
      vars = s.formula.now.vars;
      clauses = s.formula.now.clauses ++ s.entries.items;
    } };

    ghost invariant = { λ s. AllWithin s.formula.now.vars s.entries.items };
}

impl<'a> Store<'a> {
    pub(crate) fn new(alloc: Global, formula: &'a Formula) -> Store<'a>
        ensures { result ≡ formula.now }
    {
        Store {
            formula,
            entries: Vec::new(alloc),
        }
    }

    pub(crate) fn vars(&self) -> u32
        ensures { result ≡ self.now.vars }
    {
        self.formula.vars()
    }

    /// The clause of this number.
    pub fn get(&self, number: u32) -> Option<&Clause>
        ensures value { option_copied result ≡ slice_get self.now.clauses number }
        ensures within { IfSome result (λ clause. IsWithin self.now.vars clause.now) }
        ensures all_within { AllWithin self.now.vars self.now.clauses }
    {
        let number = number as usize;
        let formula = self.formula.clauses();
        if number < formula.len() {
            return formula.get(number);
        }
        self.entries.get(number - formula.len())
    }

    pub(crate) fn push(&mut self, clause: Clause) -> Result<(), NoMemory>
        requires { IsWithin self.old.vars clause }
        ensures ok { OnOk result (self.new.clauses ≡ self.old.clauses ++ clause ∷ []) }
        ensures err { OnErr result (self.new.clauses ≡ self.old.clauses) }
        ensures vars { self.new.vars ≡ self.old.vars }
    {
        self.entries.push(clause)?;
        Ok(())
    }
}
