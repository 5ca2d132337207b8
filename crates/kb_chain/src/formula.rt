//! Formulas in conjunctive normal form.

ghost use Rattle.std.specs.Prelude.{◌≡◌, ◌≤◌, ◌<◌, ◌+◌, ◌^◌, ◌↔◌, [], ◌∷◌, ◌++◌, OnOk, OnErr, IsNone, IfSome, IfNone, true};
ghost use Rattle.kb_chain.specs.Literal.{literal};
ghost use Rattle.kb_chain.specs.Cnf.{IsWithin, AllWithin};

use crate::NoMemory;
use crate::clause::Clause;
use crate::literal::Lit;
use std::alloc::Global;
use std::marker::Model;

/// A conjunction of clauses, numbered from 0, over the variables 1 to `vars`.
#[derive(Clone, Drop)]
pub struct Formula {
    limit: u32,
    kept: Vec<Clause>,
}

impl Model for Formula {
    ghost use Rattle.kb_chain.specs.Cnf.{Cnf, AllWithin};

    ghost Value = { Cnf };

    ghost view = { λ f. record { vars = f.limit; clauses = f.kept.items } };

    ghost invariant = { λ f. AllWithin f.limit f.kept.items };
}

impl Formula {
    /// No clauses over the variables 1 to `vars`.
    pub fn new(alloc: Global, vars: u32) -> Formula
        ensures vars { result.vars ≡ vars }
        ensures clauses { result.clauses ≡ [] }
    {
        Formula {
            limit: vars,
            kept: Vec::new(alloc),
        }
    }

    pub fn vars(&self) -> u32
        ensures { result ≡ self.now.vars }
    {
        self.limit
    }

    pub fn clauses(&self) -> &[Clause]
        ensures value { result.now ≡ self.now.clauses }
        ensures within { AllWithin self.now.vars self.now.clauses }
    {
        self.kept.as_slice()
    }

    /// One more variable, by its positive literal; none is left where there are 2^31 - 1.
    pub fn add_variable(&mut self) -> Option<Lit>
        ensures some { IfSome result (λ l. (l ≡ literal self.new.vars true) × (self.new.vars ≡ self.old.vars + 1)) }
        ensures none { IsNone result ↔ (2 ^ 31 ≤ self.old.vars + 1) }
        ensures unchanged { IfNone result (self.new.vars ≡ self.old.vars) }
        ensures clauses { self.new.clauses ≡ self.old.clauses }
    {
        if self.limit >= i32::MAX as u32 {
            return None;
        }
        self.limit += 1;
        Some(Lit::new(self.limit, true))
    }

    /// Puts a clause behind the others.
    pub fn add(&mut self, clause: Clause) -> Result<(), NoMemory>
        requires { IsWithin self.old.vars clause }
        ensures ok { OnOk result (self.new.clauses ≡ self.old.clauses ++ clause ∷ []) }
        ensures err { OnErr result (self.new.clauses ≡ self.old.clauses) }
        ensures vars { self.new.vars ≡ self.old.vars }
    {
        self.kept.push(clause)?;
        Ok(())
    }
}
