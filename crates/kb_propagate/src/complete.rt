//! The model that a complete trail is. Under proof.
ghost use Rattle.std.specs.Prelude.{◌≡◌, ℕ, ◌+◌, ◌<◌, ◌≤◌, ◌^◌, true, length, IfOk};
ghost use Rattle.kb_chain.specs.Literal.{literal, has};
ghost use Rattle.kb_propagate.specs.Base.{IsModelOf};

use crate::NoMemory;
use crate::trail::Trail;
use kb_chain::{Lit, Row};
use std::alloc::Global;

/// The values of the variables, that of variable 1 first: whether its positive literal is in the trail.
pub fn model(alloc: Global, trail: &Trail) -> Result<Row<bool>, NoMemory>
    ensures length { IfOk result (λ bits. length bits ≡ trail.now.vars) }
    ensures values { IfOk result (λ bits. IsModelOf bits trail.now) }
{
    let vars = trail.vars();
    let mut bits = Vec::with_capacity(alloc, vars as usize)?;
    for before in 0..vars {
        bits.push(value(trail, before + 1))?;
    }
    Ok(Row::from_vec(bits))
}

fn value(trail: &Trail, variable: u32) -> bool
    requires { 0 < variable }
    ensures { variable < 2 ^ 31 → result ≡ has trail.now.literals (literal variable true) }
{
    if variable > i32::MAX as u32 {
        return false;
    }
    trail.is_true(Lit::new(variable, true))
}
