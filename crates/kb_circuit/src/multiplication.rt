//! Products of words of 32 literals, row by row.
ghost use Rattle.std.specs.Prelude.{◌≡◌, ◌≤◌, ◌<◌, IfOk};
ghost use Rattle.kb_arith.specs.Word.{word_mul};
ghost use Rattle.kb_chain.specs.Cnf.{IsWithin};
ghost use Rattle.kb_circuit.specs.Circuit.{IsCircuit};
ghost use Rattle.kb_circuit.specs.Meaning.{Computes};
ghost use Rattle.kb_circuit.specs.Multiplication.{row_word, with_row, mul_word};

use crate::NoMemory;
use crate::builder::Builder;
use crate::shift::Shift;
use kb_chain::Lit;

impl Builder {
    /// The low 32 bits of the product, by a row for each bit of `right`.
    #[tactic(auto, unfolding(crate::specs::Multiplication::mul_word))]
    pub fn mul(&mut self, left: &[Lit; 32], right: &[Lit; 32]) -> Result<[Lit; 32], NoMemory>
        requires left { IsWithin self.old.vars left.now }
        requires right { IsWithin self.old.vars right.now }
        ensures formula { IfOk result (λ out. mul_word left.now right.now self.old ≡ (out, self.new)) }
        ensures value { IfOk result (λ out. Computes word_mul left.now right.now self.old out self.new) }
        ensures grows { self.old.vars ≤ self.new.vars }
    {
        let _truth = self.truth();
        let mut sum = self.row(0, left, right[0])?;
        for j in 1..32 {
            sum = self.with_row(j, &sum, left, right[j])?;
        }
        Ok(sum)
    }

    /// The sum so far and the row of that place.
    #[tactic(auto, unfolding(crate::specs::Multiplication::with_row))]
    fn with_row(
        &mut self,
        place: usize,
        sum: &[Lit; 32],
        left: &[Lit; 32],
        bit: Lit,
    ) -> Result<[Lit; 32], NoMemory>
        requires place { place < 32 }
        requires sum { IsWithin self.old.vars sum.now }
        requires left { IsWithin self.old.vars left.now }
        requires bit { bit.variable ≤ self.old.vars }
        ensures built { IfOk result (λ out. with_row place sum.now left.now bit self.old ≡ (out, self.new)) }
        ensures within { IfOk result (λ out. IsWithin self.new.vars out) }
        ensures grows { self.old.vars ≤ self.new.vars }
    {
        let row = self.row(place, left, bit)?;
        self.add(sum, &row)
    }

    /// The bits moved up to that place where the literal is true, else 0.
    #[tactic(auto, unfolding(crate::specs::Multiplication::row_word))]
    fn row(&mut self, place: usize, left: &[Lit; 32], bit: Lit) -> Result<[Lit; 32], NoMemory>
        requires place { place < 32 }
        requires left { IsWithin self.old.vars left.now }
        requires bit { bit.variable ≤ self.old.vars }
        ensures built { IfOk result (λ out. row_word place left.now bit self.old ≡ (out, self.new)) }
        ensures within { IfOk result (λ out. IsWithin self.new.vars out) }
        ensures grows { self.old.vars ≤ self.new.vars }
    {
        let _truth = self.truth();
        let moved = Shift::Shl.moved(place, left);
        let mut out = moved;
        for i in place..32 {
            out[i] = self.and_gate(moved[i], bit)?;
        }
        Ok(out)
    }
}
