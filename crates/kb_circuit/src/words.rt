//! Operations on words of 32 literals, the lowest bit first. Each is built as its definition writes it.
ghost use Rattle.std.specs.Prelude.{◌≡◌, ◌≤◌, ◌<◌, IfOk};
ghost use Rattle.kb_arith.specs.Word.{word_add, word_sub, word_neg, word_shl, word_shr, word_ushr, word_and, word_or, word_xor, word_eq, word_lt, word_ult};
ghost use Rattle.kb_chain.specs.Cnf.{IsWithin};
ghost use Rattle.kb_circuit.specs.Circuit.{truth, falsity, IsCircuit};
ghost use Rattle.kb_circuit.specs.Meaning.{Computes};
ghost use Rattle.kb_circuit.specs.Words.{negated_bits, sign_negated, false_bits, truth_bits, bitwise, and_word, or_word, xor_word, plus, add_word, sub_word, neg_word, equal_from, equal, eq_word, below, ult_word, lt_word, GateFits};
ghost use Rattle.kb_circuit.specs.Shifts.{stage, shift_word, shl_word, shr_word, ushr_word};

use crate::NoMemory;
use crate::builder::Builder;
use crate::gate::Gate;
use crate::shift::Shift;
use kb_chain::Lit;

impl Builder {
    /// A gate for each bit.
    pub(crate) fn bitwise(
        &mut self,
        gate: Gate,
        left: &[Lit; 32],
        right: &[Lit; 32],
    ) -> Result<[Lit; 32], NoMemory>
        requires gate { GateFits gate self.old.vars }
        requires left { IsWithin self.old.vars left.now }
        requires right { IsWithin self.old.vars right.now }
        ensures built { IfOk result (λ out. bitwise gate left.now right.now self.old ≡ (out, self.new)) }
        ensures grows { self.old.vars ≤ self.new.vars }
    {
        let mut out = *left;
        for i in 0..32 {
            out[i] = self.gate(gate, left[i], right[i])?;
        }
        Ok(out)
    }

    /// Full adders from the lowest bit upwards: the sums and the last carry.
    pub(crate) fn plus(
        &mut self,
        left: &[Lit; 32],
        right: &[Lit; 32],
        first: Lit,
    ) -> Result<([Lit; 32], Lit), NoMemory>
        requires left { IsWithin self.old.vars left.now }
        requires right { IsWithin self.old.vars right.now }
        requires first { first.variable ≤ self.old.vars }
        ensures built { IfOk result (λ out. plus left.now right.now first self.old ≡ (out, self.new)) }
        ensures carry { IfOk result (λ out. out.1.variable ≤ self.new.vars) }
        ensures grows { self.old.vars ≤ self.new.vars }
    {
        let mut sums = *left;
        let mut carry = first;
        for i in 0..32 {
            let (sum, next) = self.full_adder(left[i], right[i], carry)?;
            sums[i] = sum;
            carry = next;
        }
        Ok((sums, carry))
    }

    /// Whether the two words are equal in each bit.
    #[tactic(auto, unfolding(crate::specs::Words::equal))]
    fn equal(&mut self, left: &[Lit; 32], right: &[Lit; 32]) -> Result<Lit, NoMemory>
        requires left { IsWithin self.old.vars left.now }
        requires right { IsWithin self.old.vars right.now }
        ensures built { IfOk result (λ out. equal left.now right.now self.old ≡ (out, self.new)) }
        ensures grows { self.old.vars ≤ self.new.vars }
    {
        let mut equal = self.xor_gate(left[0], right[0])?.negated();
        for i in 1..32 {
            let differ = self.xor_gate(left[i], right[i])?;
            equal = self.and_gate(equal, differ.negated())?;
        }
        Ok(equal)
    }

    /// Whether `left` is less, both without sign: then the difference has no carry.
    #[tactic(auto, unfolding(crate::specs::Words::below))]
    fn below(&mut self, left: &[Lit; 32], right: &[Lit; 32]) -> Result<Lit, NoMemory>
        requires left { IsWithin self.old.vars left.now }
        requires right { IsWithin self.old.vars right.now }
        ensures built { IfOk result (λ out. below left.now right.now self.old ≡ (out, self.new)) }
        ensures circuit { IsCircuit self.old }
        ensures grows { self.old.vars ≤ self.new.vars }
    {
        let carry = self.truth();
        let (_, last) = self.plus(left, &negated_bits(right), carry)?;
        Ok(last.negated())
    }

    /// The bits, moved by so many places where the literal is true.
    #[tactic(auto, unfolding(crate::specs::Shifts::stage))]
    fn stage(
        &mut self,
        shift: Shift,
        places: usize,
        by: Lit,
        bits: &[Lit; 32],
    ) -> Result<[Lit; 32], NoMemory>
        requires places { places < 32 }
        requires by { by.variable ≤ self.old.vars }
        requires bits { IsWithin self.old.vars bits.now }
        ensures built { IfOk result (λ out. stage shift places by bits.now self.old ≡ (out, self.new)) }
        ensures within { IfOk result (λ out. IsWithin self.new.vars out) }
        ensures grows { self.old.vars ≤ self.new.vars }
    {
        let _truth = self.truth();
        let moved = shift.moved(places, bits);
        self.bitwise(Gate::Mux(by), &moved, bits)
    }

    /// A shift by the low five bits of a count, a stage for each.
    #[tactic(auto, unfolding(crate::specs::Shifts::shift_word))]
    fn shifted(
        &mut self,
        shift: Shift,
        bits: &[Lit; 32],
        count: &[Lit; 32],
    ) -> Result<[Lit; 32], NoMemory>
        requires left { IsWithin self.old.vars bits.now }
        requires right { IsWithin self.old.vars count.now }
        ensures built { IfOk result (λ out. shift_word shift bits.now count.now self.old ≡ (out, self.new)) }
        ensures circuit { IsCircuit self.old }
        ensures grows { self.old.vars ≤ self.new.vars }
    {
        let _truth = self.truth();
        let one = self.stage(shift, 1, count[0], bits)?;
        let two = self.stage(shift, 2, count[1], &one)?;
        let four = self.stage(shift, 4, count[2], &two)?;
        let eight = self.stage(shift, 8, count[3], &four)?;
        self.stage(shift, 16, count[4], &eight)
    }

    /// The sum.
    #[tactic(auto, unfolding(crate::specs::Words::add_word, crate::specs::Words::sums))]
    pub fn add(&mut self, left: &[Lit; 32], right: &[Lit; 32]) -> Result<[Lit; 32], NoMemory>
        requires left { IsWithin self.old.vars left.now }
        requires right { IsWithin self.old.vars right.now }
        ensures formula { IfOk result (λ out. add_word left.now right.now self.old ≡ (out, self.new)) }
        ensures value { IfOk result (λ out. Computes word_add left.now right.now self.old out self.new) }
        ensures grows { self.old.vars ≤ self.new.vars }
    {
        let carry = self.truth().negated();
        let (sums, _) = self.plus(left, right, carry)?;
        Ok(sums)
    }

    /// The difference.
    #[tactic(auto, unfolding(crate::specs::Words::sub_word, crate::specs::Words::sums))]
    pub fn sub(&mut self, left: &[Lit; 32], right: &[Lit; 32]) -> Result<[Lit; 32], NoMemory>
        requires left { IsWithin self.old.vars left.now }
        requires right { IsWithin self.old.vars right.now }
        ensures formula { IfOk result (λ out. sub_word left.now right.now self.old ≡ (out, self.new)) }
        ensures value { IfOk result (λ out. Computes word_sub left.now right.now self.old out self.new) }
        ensures grows { self.old.vars ≤ self.new.vars }
    {
        let carry = self.truth();
        let (sums, _) = self.plus(left, &negated_bits(right), carry)?;
        Ok(sums)
    }

    /// The negative.
    #[tactic(auto, unfolding(crate::specs::Words::neg_word, crate::specs::Words::sums))]
    pub fn neg(&mut self, of: &[Lit; 32]) -> Result<[Lit; 32], NoMemory>
        requires { IsWithin self.old.vars of.now }
        ensures formula { IfOk result (λ out. neg_word of.now self.old ≡ (out, self.new)) }
        ensures value { IfOk result (λ out. Computes (λ a _. word_neg a) of.now of.now self.old out self.new) }
        ensures grows { self.old.vars ≤ self.new.vars }
    {
        let carry = self.truth();
        let zero = [carry.negated(); 32];
        let (sums, _) = self.plus(&zero, &negated_bits(of), carry)?;
        Ok(sums)
    }

    /// Up by the low five bits of `right`.
    pub fn shl(&mut self, left: &[Lit; 32], right: &[Lit; 32]) -> Result<[Lit; 32], NoMemory>
        requires left { IsWithin self.old.vars left.now }
        requires right { IsWithin self.old.vars right.now }
        ensures formula { IfOk result (λ out. shl_word left.now right.now self.old ≡ (out, self.new)) }
        ensures value { IfOk result (λ out. Computes word_shl left.now right.now self.old out self.new) }
        ensures grows { self.old.vars ≤ self.new.vars }
    {
        self.shifted(Shift::Shl, left, right)
    }

    /// Down by the low five bits of `right`, keeping the sign.
    pub fn shr(&mut self, left: &[Lit; 32], right: &[Lit; 32]) -> Result<[Lit; 32], NoMemory>
        requires left { IsWithin self.old.vars left.now }
        requires right { IsWithin self.old.vars right.now }
        ensures formula { IfOk result (λ out. shr_word left.now right.now self.old ≡ (out, self.new)) }
        ensures value { IfOk result (λ out. Computes word_shr left.now right.now self.old out self.new) }
        ensures grows { self.old.vars ≤ self.new.vars }
    {
        self.shifted(Shift::Shr, left, right)
    }

    /// Down by the low five bits of `right`, with zeros.
    pub fn ushr(&mut self, left: &[Lit; 32], right: &[Lit; 32]) -> Result<[Lit; 32], NoMemory>
        requires left { IsWithin self.old.vars left.now }
        requires right { IsWithin self.old.vars right.now }
        ensures formula { IfOk result (λ out. ushr_word left.now right.now self.old ≡ (out, self.new)) }
        ensures value { IfOk result (λ out. Computes word_ushr left.now right.now self.old out self.new) }
        ensures grows { self.old.vars ≤ self.new.vars }
    {
        self.shifted(Shift::Ushr, left, right)
    }

    /// Bit by bit.
    pub fn and(&mut self, left: &[Lit; 32], right: &[Lit; 32]) -> Result<[Lit; 32], NoMemory>
        requires left { IsWithin self.old.vars left.now }
        requires right { IsWithin self.old.vars right.now }
        ensures formula { IfOk result (λ out. and_word left.now right.now self.old ≡ (out, self.new)) }
        ensures value { IfOk result (λ out. Computes word_and left.now right.now self.old out self.new) }
        ensures grows { self.old.vars ≤ self.new.vars }
    {
        let _truth = self.truth();
        self.bitwise(Gate::And, left, right)
    }

    /// Bit by bit.
    pub fn or(&mut self, left: &[Lit; 32], right: &[Lit; 32]) -> Result<[Lit; 32], NoMemory>
        requires left { IsWithin self.old.vars left.now }
        requires right { IsWithin self.old.vars right.now }
        ensures formula { IfOk result (λ out. or_word left.now right.now self.old ≡ (out, self.new)) }
        ensures value { IfOk result (λ out. Computes word_or left.now right.now self.old out self.new) }
        ensures grows { self.old.vars ≤ self.new.vars }
    {
        let _truth = self.truth();
        self.bitwise(Gate::Or, left, right)
    }

    /// Bit by bit.
    pub fn xor(&mut self, left: &[Lit; 32], right: &[Lit; 32]) -> Result<[Lit; 32], NoMemory>
        requires left { IsWithin self.old.vars left.now }
        requires right { IsWithin self.old.vars right.now }
        ensures formula { IfOk result (λ out. xor_word left.now right.now self.old ≡ (out, self.new)) }
        ensures value { IfOk result (λ out. Computes word_xor left.now right.now self.old out self.new) }
        ensures grows { self.old.vars ≤ self.new.vars }
    {
        let _truth = self.truth();
        self.bitwise(Gate::Xor, left, right)
    }

    /// 1 where the two are equal, else 0.
    #[tactic(auto, unfolding(crate::specs::Words::eq_word))]
    pub fn eq(&mut self, left: &[Lit; 32], right: &[Lit; 32]) -> Result<[Lit; 32], NoMemory>
        requires left { IsWithin self.old.vars left.now }
        requires right { IsWithin self.old.vars right.now }
        ensures formula { IfOk result (λ out. eq_word left.now right.now self.old ≡ (out, self.new)) }
        ensures value { IfOk result (λ out. Computes word_eq left.now right.now self.old out self.new) }
        ensures grows { self.old.vars ≤ self.new.vars }
    {
        let _truth = self.truth();
        let equal = self.equal(left, right)?;
        Ok(truth_bits(equal))
    }

    /// 1 where `left` is less, both with their signs, else 0.
    #[tactic(auto, unfolding(crate::specs::Words::lt_word))]
    pub fn lt(&mut self, left: &[Lit; 32], right: &[Lit; 32]) -> Result<[Lit; 32], NoMemory>
        requires left { IsWithin self.old.vars left.now }
        requires right { IsWithin self.old.vars right.now }
        ensures formula { IfOk result (λ out. lt_word left.now right.now self.old ≡ (out, self.new)) }
        ensures value { IfOk result (λ out. Computes word_lt left.now right.now self.old out self.new) }
        ensures grows { self.old.vars ≤ self.new.vars }
    {
        let less = self.below(&sign_negated(left), &sign_negated(right))?;
        Ok(truth_bits(less))
    }

    /// 1 where `left` is less, both without sign, else 0.
    #[tactic(auto, unfolding(crate::specs::Words::ult_word))]
    pub fn ult(&mut self, left: &[Lit; 32], right: &[Lit; 32]) -> Result<[Lit; 32], NoMemory>
        requires left { IsWithin self.old.vars left.now }
        requires right { IsWithin self.old.vars right.now }
        ensures formula { IfOk result (λ out. ult_word left.now right.now self.old ≡ (out, self.new)) }
        ensures value { IfOk result (λ out. Computes word_ult left.now right.now self.old out self.new) }
        ensures grows { self.old.vars ≤ self.new.vars }
    {
        let less = self.below(left, right)?;
        Ok(truth_bits(less))
    }
}

/// Each bit negated.
pub(crate) fn negated_bits(bits: &[Lit; 32]) -> [Lit; 32]
    ensures { result ≡ negated_bits bits.now }
{
    let mut out = *bits;
    for i in 0..32 {
        out[i] = bits[i].negated();
    }
    out
}

/// The highest bit negated.
fn sign_negated(bits: &[Lit; 32]) -> [Lit; 32]
    ensures { result ≡ sign_negated bits.now }
{
    let mut out = *bits;
    out[31] = bits[31].negated();
    out
}

/// A word with this lowest bit, the others false.
pub fn truth_bits(lowest: Lit) -> [Lit; 32]
    ensures { result ≡ truth_bits lowest }
{
    let mut out = [Lit::new(1, false); 32];
    out[0] = lowest;
    out
}
