//! The decision: the most active variable without a value, with the sign that it had last (phase saving: Pipatsrisawat and
//! Darwiche, 2007). Free, but for this: a literal is found unless all variables have a value.
ghost use Rattle.std.specs.Prelude.{◌≡◌, ℕ, ◌+◌, ◌<◌, ◌≤◌, length, IfSome, IfNone};
ghost use Rattle.kb_propagate.specs.Base.{HasNoValue, IsValued, AllAssigned};

use crate::order::ActivityOrder;
use kb_chain::Lit;
use kb_propagate::Trail;

/// The literal to decide next: of the most active variable that has no value, with the sign that it had last; none where all
/// variables have a value.
pub fn pick(order: &mut ActivityOrder, phases: &[bool], trail: &Trail) -> Option<Lit>
    requires order { order.old ≡ trail.now.vars }
    requires phases { length phases.now ≡ trail.now.vars + 1 }
    ensures some { IfSome result (HasNoValue trail.now) }
    ensures none { IfNone result (AllAssigned trail.now) }
    ensures order { order.new ≡ order.old }
{
    if let Some(literal) = most_active(order, phases, trail) {
        return Some(literal);
    }
    first_free(phases, trail)
}

fn most_active(order: &mut ActivityOrder, phases: &[bool], trail: &Trail) -> Option<Lit>
    requires order { order.old ≡ trail.now.vars }
    requires phases { length phases.now ≡ trail.now.vars + 1 }
    ensures some { IfSome result (HasNoValue trail.now) }
    ensures order { order.new ≡ order.old }
{
    for _ in 0..trail.vars() {
        let Some(variable) = order.pop() else {
            return None;
        };
        if let Some(literal) = free_literal(phases, trail, variable) {
            return Some(literal);
        }
    }
    None
}

fn first_free(phases: &[bool], trail: &Trail) -> Option<Lit>
    requires phases { length phases.now ≡ trail.now.vars + 1 }
    ensures some { IfSome result (HasNoValue trail.now) }
    ensures none { IfNone result (AllAssigned trail.now) }
{
    for before in 0..trail.vars() {
        if let Some(literal) = free_literal(phases, trail, before + 1) {
            return Some(literal);
        }
    }
    None
}

/// The literal of a variable with the sign that it had last, unless the variable has a value.
fn free_literal(phases: &[bool], trail: &Trail, variable: u32) -> Option<Lit>
    requires above { 0 < variable }
    requires below { variable ≤ trail.now.vars }
    requires phases { length phases.now ≡ trail.now.vars + 1 }
    ensures some { IfSome result (HasNoValue trail.now) }
    ensures none { IfNone result (IsValued trail.now variable) }
{
    if variable > i32::MAX as u32 {
        return None;
    }
    let literal = Lit::new(variable, phases[variable as usize]);
    if trail.is_true(literal) {
        return None;
    }
    if trail.is_false(literal) {
        return None;
    }
    Some(literal)
}
