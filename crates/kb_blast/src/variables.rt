//! The words of program variables.
ghost use Rattle.std.specs.Prelude.{◌≡◌, ◌≤◌, map, IfOk};
ghost use Rattle.kb_chain.specs.Cnf.{IsWithin, AllWithin};
ghost use Rattle.kb_circuit.specs.Circuit.{IsCircuit};
ghost use Rattle.kb_blast.specs.Conditions.{new_bits, variable_word, variable_words};
ghost use Rattle.kb_blast.specs.Meaning.{IsRising};
ghost use Rattle.kb_blast.specs.Listing.{numbers_of, literals_of};

use crate::NoMemory;
use kb_chain::Lit;
use kb_circuit::{Builder, truth_bits};
use kb_terms::VarKind;
use std::alloc::Global;
use std::collections::BTreeMap;

/// The words of the variables of these kinds, by rising number.
pub(crate) fn variable_words(
    alloc: Global,
    builder: &mut Builder,
    kinds: &BTreeMap<u32, VarKind>,
) -> Result<BTreeMap<u32, [Lit; 32]>, NoMemory>
    requires { IsRising (numbers_of kinds.now.entries) }
    ensures built { IfOk result (λ words. variable_words kinds.now.entries builder.old ≡ (words.entries, builder.new)) }
    ensures within { IfOk result (λ words. AllWithin builder.new.vars (literals_of words.entries)) }
    ensures grows { builder.old.vars ≤ builder.new.vars }
{
    let mut words = BTreeMap::new(alloc);
    for (number, kind) in kinds {
        let word = variable_word(builder, *kind)?;
        words.insert(*number, word)?;
    }
    Ok(words)
}

/// New variables for an int, or one for a boolean.
#[tactic(auto, unfolding(crate::specs::Conditions::variable_word))]
fn variable_word(builder: &mut Builder, kind: VarKind) -> Result<[Lit; 32], NoMemory>
    ensures built { IfOk result (λ word. variable_word kind builder.old ≡ (word, builder.new)) }
    ensures within { IfOk result (λ word. IsWithin builder.new.vars word) }
    ensures grows { builder.old.vars ≤ builder.new.vars }
{
    match kind {
        VarKind::Int => new_bits(builder),
        VarKind::Bool => {
            let _truth = builder.truth();
            let bit = builder.input()?;
            Ok(truth_bits(bit))
        }
    }
}

fn new_bits(builder: &mut Builder) -> Result<[Lit; 32], NoMemory>
    ensures built { IfOk result (λ word. new_bits 32 builder.old ≡ (word, builder.new)) }
    ensures within { IfOk result (λ word. IsWithin builder.new.vars word) }
    ensures grows { builder.old.vars ≤ builder.new.vars }
{
    let mut bits = [builder.truth(); 32];
    for i in 0..32 {
        bits[i] = builder.input()?;
    }
    Ok(bits)
}
