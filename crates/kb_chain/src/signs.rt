//! Whether a clause has both literals of a variable.

ghost use Rattle.std.specs.Prelude.{◌≡◌, None};
ghost use Rattle.std.specs.Bool.{OnTrue, OnFalse};
ghost use Rattle.kb_chain.specs.Propagation.{HasBothSigns};
ghost use Rattle.kb_chain.specs.Signs.{repeats_variable, repeats};

use crate::clause::Clause;
use crate::literal::Lit;

/// Whether a clause has both literals of a variable.
pub(crate) fn has_both_signs(clause: &Clause) -> bool
    ensures both { OnTrue result (HasBothSigns clause.now) }
    ensures one { OnFalse result (HasBothSigns clause.now → ⊥) }
{
    repeats(clause.literals())
}

/// Whether a literal is of the variable of the one in front of it.
fn repeats(literals: &[Lit]) -> bool
    ensures { result ≡ repeats None literals.now }
{
    let mut previous = None;
    for literal in literals {
        if repeats_variable(previous, *literal) {
            return true;
        }
        previous = Some(literal.variable());
    }
    false
}

fn repeats_variable(previous: Option<u32>, literal: Lit) -> bool
    ensures { result ≡ repeats_variable previous literal }
{
    match previous {
        Some(variable) => variable == literal.variable(),
        None => false,
    }
}
