//! The builder and its gates.
ghost use Rattle.std.specs.Prelude.{◌≡◌, ◌≤◌, ℕ, List, [], ◌∷◌, IfOk};
ghost use Rattle.kb_chain.specs.Cnf.{IsWithin};
ghost use Rattle.kb_circuit.specs.Circuit.{truth, falsity, next_literal, with_variable, with_clause, IsCircuit};
ghost use Rattle.kb_circuit.specs.Meaning.{IsFree};
ghost use Rattle.kb_circuit.specs.Words.{GateFits};
ghost use Rattle.kb_circuit.specs.Gates.{and_gate, xor_gate, or_gate, mux_gate, masked_mux_gate, gate_of, full_adder};

use crate::NoMemory;
use crate::gate::Gate;
use kb_chain::{Clause, Formula, Lit};
use std::alloc::Global;
use std::marker::Model;

/// Builds a formula gate by gate. Variable 1 is true.
#[derive(Drop)]
pub struct Builder {
    alloc: Global,
    formula: Formula,
}

impl Model for Builder {
    ghost use Rattle.kb_chain.specs.Cnf.{Cnf};
    ghost use Rattle.kb_circuit.specs.Circuit.{IsCircuit};

    ghost Value = { Cnf };

    ghost view = { λ b. b.formula };

    ghost invariant = { λ b. IsCircuit b.formula };
}

impl Builder {
    /// The formula that says that variable 1 is true.
    pub fn new(alloc: Global) -> Result<Builder, NoMemory>
        ensures formula { IfOk result (λ b. b ≡ record { vars = 1; clauses = (truth ∷ []) ∷ [] }) }
        ensures free { IfOk result (IsFree []) }
    {
        let mut formula = Formula::new(alloc, 1);
        let one = Clause::from_literals(alloc, &[Lit::new(1, true)])?;
        formula.add(one)?;
        Ok(Builder { alloc, formula })
    }

    /// The next variable, of which no clause speaks. Until `unit` is called, inputs can have any values.
    pub fn input(&mut self) -> Result<Lit, NoMemory>
        ensures literal { IfOk result (λ l. l ≡ next_literal self.old) }
        ensures formula { IfOk result (λ _. self.new ≡ with_variable self.old) }
        ensures free { IfOk result (λ l. (inputs : List ℕ) → IsFree inputs self.old → IsFree (l.variable ∷ inputs) self.new) }
        ensures grows { self.old.vars ≤ self.new.vars }
    {
        match self.formula.add_variable() {
            Some(literal) => Ok(literal),
            None => Err(NoMemory),
        }
    }

    /// Says that a literal is true.
    pub fn unit(&mut self, of: Lit) -> Result<(), NoMemory>
        requires { of.variable ≤ self.old.vars }
        ensures { IfOk result (λ _. self.new ≡ with_clause self.old (of ∷ [])) }
    {
        self.clause(&[of])
    }

    /// The formula that was built.
    pub fn finish(self) -> Formula
        ensures { result ≡ self }
    {
        self.formula
    }

    /// The literal that is true.
    pub fn truth(&self) -> Lit
        ensures value { result ≡ truth }
        ensures circuit { IsCircuit self.now }
    {
        let _circuit = &self.formula;
        Lit::new(1, true)
    }

    fn clause(&mut self, literals: &[Lit]) -> Result<(), NoMemory>
        requires { IsWithin self.old.vars literals.now }
        ensures formula { IfOk result (λ _. self.new ≡ with_clause self.old literals.now) }
        ensures vars { self.new.vars ≡ self.old.vars }
    {
        let clause = Clause::from_literals(self.alloc, literals)?;
        self.formula.add(clause)?;
        Ok(())
    }

    #[tactic(auto, unfolding(crate::specs::Gates::and_gate))]
    pub(crate) fn and_gate(&mut self, a: Lit, b: Lit) -> Result<Lit, NoMemory>
        requires left { a.variable ≤ self.old.vars }
        requires right { b.variable ≤ self.old.vars }
        ensures built { IfOk result (λ g. and_gate a b self.old ≡ (g, self.new)) }
        ensures within { IfOk result (λ g. g.variable ≤ self.new.vars) }
        ensures grows { self.old.vars ≤ self.new.vars }
    {
        let g = self.input()?;
        self.clause(&[g.negated(), a])?;
        self.clause(&[g.negated(), b])?;
        self.clause(&[g, a.negated(), b.negated()])?;
        Ok(g)
    }

    #[tactic(auto, unfolding(crate::specs::Gates::xor_gate))]
    pub(crate) fn xor_gate(&mut self, a: Lit, b: Lit) -> Result<Lit, NoMemory>
        requires left { a.variable ≤ self.old.vars }
        requires right { b.variable ≤ self.old.vars }
        ensures built { IfOk result (λ g. xor_gate a b self.old ≡ (g, self.new)) }
        ensures within { IfOk result (λ g. g.variable ≤ self.new.vars) }
        ensures grows { self.old.vars ≤ self.new.vars }
    {
        let g = self.input()?;
        self.clause(&[g.negated(), a, b])?;
        self.clause(&[g.negated(), a.negated(), b.negated()])?;
        self.clause(&[g, a.negated(), b])?;
        self.clause(&[g, a, b.negated()])?;
        Ok(g)
    }

    #[tactic(auto, unfolding(crate::specs::Gates::or_gate))]
    pub(crate) fn or_gate(&mut self, a: Lit, b: Lit) -> Result<Lit, NoMemory>
        requires left { a.variable ≤ self.old.vars }
        requires right { b.variable ≤ self.old.vars }
        ensures built { IfOk result (λ g. or_gate a b self.old ≡ (g, self.new)) }
        ensures within { IfOk result (λ g. g.variable ≤ self.new.vars) }
        ensures grows { self.old.vars ≤ self.new.vars }
    {
        let neither = self.and_gate(a.negated(), b.negated())?;
        Ok(neither.negated())
    }

    #[tactic(auto, unfolding(crate::specs::Gates::mux_gate))]
    fn mux_gate(&mut self, s: Lit, a: Lit, b: Lit) -> Result<Lit, NoMemory>
        requires select { s.variable ≤ self.old.vars }
        requires left { a.variable ≤ self.old.vars }
        requires right { b.variable ≤ self.old.vars }
        ensures built { IfOk result (λ g. mux_gate s a b self.old ≡ (g, self.new)) }
        ensures within { IfOk result (λ g. g.variable ≤ self.new.vars) }
        ensures grows { self.old.vars ≤ self.new.vars }
    {
        let chosen = self.and_gate(s, a)?;
        let other = self.and_gate(s.negated(), b)?;
        self.or_gate(chosen, other)
    }

    #[tactic(auto, unfolding(crate::specs::Gates::masked_mux_gate))]
    fn masked_mux_gate(&mut self, mask: Lit, s: Lit, a: Lit, b: Lit) -> Result<Lit, NoMemory>
        requires mask { mask.variable ≤ self.old.vars }
        requires select { s.variable ≤ self.old.vars }
        requires left { a.variable ≤ self.old.vars }
        requires right { b.variable ≤ self.old.vars }
        ensures built { IfOk result (λ g. masked_mux_gate mask s a b self.old ≡ (g, self.new)) }
        ensures within { IfOk result (λ g. g.variable ≤ self.new.vars) }
        ensures grows { self.old.vars ≤ self.new.vars }
    {
        let chosen = self.mux_gate(s, a, b)?;
        self.and_gate(mask, chosen)
    }

    pub(crate) fn gate(&mut self, gate: Gate, a: Lit, b: Lit) -> Result<Lit, NoMemory>
        requires select { GateFits gate self.old.vars }
        requires left { a.variable ≤ self.old.vars }
        requires right { b.variable ≤ self.old.vars }
        ensures built { IfOk result (λ g. gate_of gate a b self.old ≡ (g, self.new)) }
        ensures within { IfOk result (λ g. g.variable ≤ self.new.vars) }
        ensures grows { self.old.vars ≤ self.new.vars }
    {
        match gate {
            Gate::And => self.and_gate(a, b),
            Gate::Or => self.or_gate(a, b),
            Gate::Xor => self.xor_gate(a, b),
            Gate::Mux(s) => self.mux_gate(s, a, b),
            Gate::MaskedMux(mask, s) => self.masked_mux_gate(mask, s, a, b),
        }
    }

    #[tactic(auto, unfolding(crate::specs::Gates::full_adder))]
    pub(crate) fn full_adder(&mut self, a: Lit, b: Lit, c: Lit) -> Result<(Lit, Lit), NoMemory>
        requires left { a.variable ≤ self.old.vars }
        requires right { b.variable ≤ self.old.vars }
        requires carry { c.variable ≤ self.old.vars }
        ensures built { IfOk result (λ out. full_adder a b c self.old ≡ (out, self.new)) }
        ensures within { IfOk result (λ out. out.1.variable ≤ self.new.vars) }
        ensures grows { self.old.vars ≤ self.new.vars }
    {
        let x = self.xor_gate(a, b)?;
        let sum = self.xor_gate(x, c)?;
        let p = self.and_gate(a, b)?;
        let q = self.and_gate(x, c)?;
        let carry = self.or_gate(p, q)?;
        Ok((sum, carry))
    }
}
