//! Quotient and remainder, by long division of the absolute values.
ghost use Rattle.std.specs.Prelude.{◌≡◌, ◌≤◌, IfOk};
ghost use Rattle.kb_arith.specs.Word.{word_div, word_rem};
ghost use Rattle.kb_chain.specs.Cnf.{IsWithin};
ghost use Rattle.kb_circuit.specs.Circuit.{IsCircuit};
ghost use Rattle.kb_circuit.specs.Division.{absolute, brought_down, division_turn, long_division, absolute_division, any_bit, div_word, rem_word};
ghost use Rattle.kb_circuit.specs.Meaning.{Computes};

use crate::NoMemory;
use crate::builder::Builder;
use crate::gate::Gate;
use crate::words::negated_bits;
use kb_chain::Lit;

/// What a division has so far, from the highest bit downwards.
#[derive(Clone, Copy)]
struct Division {
    quotient: [Lit; 32],
    remainder: [Lit; 32],
}

/// What one turn of long division gives: a bit of the quotient, and the next remainder.
#[derive(Clone, Copy)]
struct Turn {
    bit: Lit,
    remainder: [Lit; 32],
}

impl Builder {
    /// The word without its sign.
    #[tactic(auto, unfolding(crate::specs::Division::absolute))]
    fn absolute(&mut self, of: &[Lit; 32]) -> Result<[Lit; 32], NoMemory>
        requires { IsWithin self.old.vars of.now }
        ensures built { IfOk result (λ out. absolute of.now self.old ≡ (out, self.new)) }
        ensures within { IfOk result (λ out. IsWithin self.new.vars out) }
        ensures grows { self.old.vars ≤ self.new.vars }
    {
        let _truth = self.truth();
        let negative = self.neg(of)?;
        self.bitwise(Gate::Mux(of[31]), &negative, of)
    }

    /// Brings down the next bit of the dividend, and takes the divisor away where it fits.
    #[tactic(auto, unfolding(crate::specs::Division::division_turn))]
    fn division_turn(
        &mut self,
        divisor: &[Lit; 32],
        next: Lit,
        remainder: &[Lit; 32],
    ) -> Result<Turn, NoMemory>
        requires divisor { IsWithin self.old.vars divisor.now }
        requires next { next.variable ≤ self.old.vars }
        requires remainder { IsWithin self.old.vars remainder.now }
        ensures built { IfOk result (λ turn. division_turn divisor.now next remainder.now self.old ≡ ((turn.bit, turn.remainder), self.new)) }
        ensures bit { IfOk result (λ turn. turn.bit.variable ≤ self.new.vars) }
        ensures within { IfOk result (λ turn. IsWithin self.new.vars turn.remainder) }
        ensures grows { self.old.vars ≤ self.new.vars }
    {
        let carry = self.truth();
        let longer = brought_down(next, remainder);
        let (difference, fits) = self.plus(&longer, &negated_bits(divisor), carry)?;
        let left = self.bitwise(Gate::Mux(fits), &difference, &longer)?;
        Ok(Turn {
            bit: fits,
            remainder: left,
        })
    }

    /// Quotient and remainder of words without sign.
    fn long_division(
        &mut self,
        dividend: &[Lit; 32],
        divisor: &[Lit; 32],
    ) -> Result<Division, NoMemory>
        requires dividend { IsWithin self.old.vars dividend.now }
        requires divisor { IsWithin self.old.vars divisor.now }
        ensures built { IfOk result (λ division. long_division dividend.now divisor.now self.old ≡ ((division.quotient, division.remainder), self.new)) }
        ensures quotient { IfOk result (λ division. IsWithin self.new.vars division.quotient) }
        ensures remainder { IfOk result (λ division. IsWithin self.new.vars division.remainder) }
        ensures grows { self.old.vars ≤ self.new.vars }
    {
        let mut quotient = *dividend;
        let mut remainder = [self.truth().negated(); 32];
        for place in 0..32 {
            let turn = self.division_turn(divisor, dividend[31 - place], &remainder)?;
            quotient[31 - place] = turn.bit;
            remainder = turn.remainder;
        }
        Ok(Division {
            quotient,
            remainder,
        })
    }

    /// Quotient and remainder of the absolute values.
    #[tactic(auto, unfolding(crate::specs::Division::absolute_division))]
    fn absolute_division(
        &mut self,
        left: &[Lit; 32],
        right: &[Lit; 32],
    ) -> Result<Division, NoMemory>
        requires left { IsWithin self.old.vars left.now }
        requires right { IsWithin self.old.vars right.now }
        ensures built { IfOk result (λ division. absolute_division left.now right.now self.old ≡ ((division.quotient, division.remainder), self.new)) }
        ensures quotient { IfOk result (λ division. IsWithin self.new.vars division.quotient) }
        ensures remainder { IfOk result (λ division. IsWithin self.new.vars division.remainder) }
        ensures grows { self.old.vars ≤ self.new.vars }
    {
        let dividend = self.absolute(left)?;
        let divisor = self.absolute(right)?;
        self.long_division(&dividend, &divisor)
    }

    /// Whether some bit is true.
    #[tactic(auto, unfolding(crate::specs::Division::any_bit))]
    fn any_bit(&mut self, bits: &[Lit; 32]) -> Result<Lit, NoMemory>
        requires { IsWithin self.old.vars bits.now }
        ensures built { IfOk result (λ out. any_bit bits.now self.old ≡ (out, self.new)) }
        ensures within { IfOk result (λ out. out.variable ≤ self.new.vars) }
        ensures grows { self.old.vars ≤ self.new.vars }
    {
        let mut found = bits[0];
        for i in 1..32 {
            found = self.or_gate(found, bits[i])?;
        }
        Ok(found)
    }

    /// The quotient, rounded toward zero; 0 where the divisor is 0. It has 9024 gates.
    #[tactic(auto, unfolding(crate::specs::Division::div_word))]
    pub fn div(&mut self, left: &[Lit; 32], right: &[Lit; 32]) -> Result<[Lit; 32], NoMemory>
        requires left { IsWithin self.old.vars left.now }
        requires right { IsWithin self.old.vars right.now }
        ensures formula { IfOk result (λ out. div_word left.now right.now self.old ≡ (out, self.new)) }
        ensures value { IfOk result (λ out. Computes word_div left.now right.now self.old out self.new) }
        ensures grows { self.old.vars ≤ self.new.vars }
    {
        let _truth = self.truth();
        let division = self.absolute_division(left, right)?;
        let differ = self.xor_gate(left[31], right[31])?;
        let negative = self.neg(&division.quotient)?;
        let nonzero = self.any_bit(right)?;
        self.bitwise(
            Gate::MaskedMux(nonzero, differ),
            &negative,
            &division.quotient,
        )
    }

    /// The remainder, with the sign of `left`; 0 where the divisor is 0. It has 9023 gates.
    #[tactic(auto, unfolding(crate::specs::Division::rem_word))]
    pub fn rem(&mut self, left: &[Lit; 32], right: &[Lit; 32]) -> Result<[Lit; 32], NoMemory>
        requires left { IsWithin self.old.vars left.now }
        requires right { IsWithin self.old.vars right.now }
        ensures formula { IfOk result (λ out. rem_word left.now right.now self.old ≡ (out, self.new)) }
        ensures value { IfOk result (λ out. Computes word_rem left.now right.now self.old out self.new) }
        ensures grows { self.old.vars ≤ self.new.vars }
    {
        let _truth = self.truth();
        let division = self.absolute_division(left, right)?;
        let negative = self.neg(&division.remainder)?;
        let nonzero = self.any_bit(right)?;
        self.bitwise(
            Gate::MaskedMux(nonzero, left[31]),
            &negative,
            &division.remainder,
        )
    }
}

/// The bits moved up by one place, with this lowest bit.
fn brought_down(next: Lit, remainder: &[Lit; 32]) -> [Lit; 32]
    ensures { result ≡ brought_down next remainder.now }
{
    let mut out = [next; 32];
    let all = &mut out[..];
    all[1..].copy_from_slice(&remainder[..31]);
    out
}
