//! Assignments read back as the values of program variables.
ghost use Rattle.std.specs.Prelude.{◌≡◌, ◌≤◌, ◌<◌, ℕ, length, set};
ghost use Rattle.kb_chain.specs.Literal.{is_true};
ghost use Rattle.kb_chain.specs.Clause.{assignment_of};
ghost use Rattle.kb_chain.specs.Cnf.{IsWithin};
ghost use Rattle.kb_circuit.specs.Meaning.{int_under};
ghost use Rattle.kb_terms.specs.Terms.{int_at};
ghost use Rattle.kb_blast.specs.Meaning.{AreReadable, Reads, IsElsewhere};

use crate::conditions::Blasted;
use kb_chain::Lit;

/// Writes the values that the variables' words have under an assignment, the bit of variable 1 first. It takes no memory.
pub fn read_back(blasted: &Blasted, bits: &[bool], into: &mut [i32])
    requires readable { AreReadable blasted.now.formula.vars (length into.old) blasted.now.vars }
    requires bits { length bits.now ≡ blasted.now.formula.vars }
    ensures read { Reads (assignment_of bits.now) blasted.now.vars into.new }
    ensures others { (v : ℕ) → IsElsewhere v blasted.now.vars → int_at into.new v ≡ int_at into.old v }
    ensures length { length into.new ≡ length into.old }
{
    let mut rest = blasted.vars.as_slice();
    while let [(number, word), others @ ..] = rest {
        into[*number as usize] = int_of(bits, word);
        rest = others;
    }
}

/// The int of a word's bits, from the highest on.
#[tactic(auto, unfolding(kb_circuit::specs::Meaning::int_under))]
fn int_of(bits: &[bool], word: &[Lit; 32]) -> i32
    requires { IsWithin (length bits.now) word.now }
    ensures { result ≡ int_under (assignment_of bits.now) word.now }
{
    let mut number = 0u32;
    for i in 0..32 {
        let bit = u32::from(is_true(bits, word[31 - i]));
        number = 2 * number + bit;
    }
    number.cast_signed()
}

fn is_true(bits: &[bool], literal: Lit) -> bool
    requires { literal.variable ≤ length bits.now }
    ensures { result ≡ is_true (assignment_of bits.now) literal }
{
    bits[literal.variable() as usize - 1] == literal.is_positive()
}
