//! The alternatives of the next int step.
ghost use Rattle.std.specs.Prelude.{◌≡◌, ◌++◌, ◌∷◌, [], Some, not, true, filter, IfOk, OnOk};
ghost use Rattle.kb_terms.specs.Terms.{IsTerm};
ghost use Rattle.kb_frames.specs.Next.{next_is_int};
ghost use Rattle.kb_ways.specs.Asked.{is_refuted};
ghost use Rattle.kb_stepint.specs.Choices.{both_ways, branch_conditions, choices_of, divisor_conditions, key_conditions, keys_from};
ghost use Rattle.kb_stepint.specs.Questions.{HasTermsOf, offered_by};
ghost use Rattle.kb_ways.specs.Needs.{IsSide};
ghost use Rattle.kb_ways.specs.Reached.{IsReached};
ghost use Rattle.kb_stepint.specs.Keys.{keys_of};
ghost use Rattle.kb_picture.specs.declared.choice.Choice.TheVariants.{Default, Key, NotZero, Zero};

use crate::NoMemory;
use crate::keys::Keys;
use crate::look::look_at;
use crate::questions::IntQuestion;
use kb_code::Cond;
use kb_frames::SymState;
use kb_heap::Bounds;
use kb_picture::Choice;
use kb_semantics::World;
use kb_terms::TermId;
use kb_ways::{Side, branch_condition, equals_number, is_against, offer, only_way_on};
use std::alloc::Global;

/// The alternatives of the next step of a state, in their order. Whether a branch is taken: not, then taken. Of a switch each
/// key in rising order, then the default. Of a division first that the divisor is 0. Of every other step the only way on. An
/// alternative that asks for a condition which is decided as false is left out, and no other is.
///
/// The state is one to which `start` and later calls lead in this world, and whose next step is one of ints. It takes time in
/// proportion to the alternatives before any is left out, whatever the state has met.
pub fn choices_int(
    alloc: Global,
    world: &World,
    state: &SymState,
    bounds: &Bounds,
) -> Result<Vec<Choice>, NoMemory>
    requires reached { IsReached world.now state.now }
    requires int { next_is_int world.now state.now ≡ true }
    ensures { IfOk result (λ choices. choices.items ≡ choices_of world.now state.now bounds.now) }
{
    let look = look_at(alloc, world, state, bounds);
    match &look.question {
        Some(question) => alternatives(alloc, state, question),
        None => only_way_on(alloc),
    }
}

/// The alternatives of what is to be told that ask for nothing that is decided as false.
pub(crate) fn alternatives(
    alloc: Global,
    state: &SymState,
    question: &IntQuestion<'_>,
) -> Result<Vec<Choice>, NoMemory>
    requires { HasTermsOf state.now.nodes question.now }
    ensures { IfOk result (λ choices. choices.items ≡ offered_by state.now (Some question.now)) }
{
    match question {
        IntQuestion::Branch(cond, left, right) => branch_choices(
            alloc, state, *cond, *left, *right,
        ),
        IntQuestion::Key(x, keys) => key_choices(alloc, state, *x, keys),
        IntQuestion::Divisor(x) => zero_choices(alloc, state, *x),
    }
}

// Whether a branch is taken.
#[tactic(auto, using(kb_ways::proofs::SideLaws::branch_sides))]
fn branch_choices(
    alloc: Global,
    state: &SymState,
    cond: Cond,
    left: Side,
    right: Side,
) -> Result<Vec<Choice>, NoMemory>
    requires first { IsSide state.now.nodes left }
    requires second { IsSide state.now.nodes right }
    ensures { IfOk result (λ choices. choices.items ≡ filter (λ choice. not (is_refuted state.now (branch_conditions cond left right choice))) both_ways) }
{
    let mut choices = Vec::new(alloc);
    let not_taken = branch_condition(cond, left, right, false);
    let taken = branch_condition(cond, left, right, true);
    offer(state, &not_taken, Choice::Branch(false), &mut choices)?;
    offer(state, &taken, Choice::Branch(true), &mut choices)?;
    Ok(choices)
}

// Whether a divisor is 0.
#[tactic(auto, using(kb_ways::proofs::SideLaws::key_sides))]
fn zero_choices(alloc: Global, state: &SymState, divisor: TermId) -> Result<Vec<Choice>, NoMemory>
    requires { IsTerm state.now.nodes divisor }
    ensures { IfOk result (λ choices. choices.items ≡ filter (λ choice. not (is_refuted state.now (divisor_conditions divisor choice))) (Zero ∷ NotZero ∷ [])) }
{
    let mut choices = Vec::new(alloc);
    let zero = equals_number(divisor, 0, true);
    let not_zero = equals_number(divisor, 0, false);
    offer(state, &zero, Choice::Zero, &mut choices)?;
    offer(state, &not_zero, Choice::NotZero, &mut choices)?;
    Ok(choices)
}

// Which key of a switch an int is.
fn key_choices(
    alloc: Global,
    state: &SymState,
    x: TermId,
    keys: &Keys<'_>,
) -> Result<Vec<Choice>, NoMemory>
    requires { IsTerm state.now.nodes x }
    ensures { IfOk result (λ choices. choices.items ≡ filter (λ choice. not (is_refuted state.now (key_conditions x (keys_of keys.now) choice))) (keys_from 0 (keys_of keys.now))) }
{
    let mut choices = Vec::new(alloc);
    for place in 0..keys.len() {
        offer_key(state, x, keys, place, &mut choices)?;
    }
    offer_default(state, x, keys, &mut choices)?;
    Ok(choices)
}

// Adds the key of that place, unless it is decided that the int is another.
#[tactic(auto, using(kb_ways::proofs::SideLaws::key_sides))]
fn offer_key(
    state: &SymState,
    x: TermId,
    keys: &Keys<'_>,
    place: usize,
    choices: &mut Vec<Choice>,
) -> Result<(), NoMemory>
    requires { IsTerm state.now.nodes x }
    ensures { OnOk result (choices.new.items ≡ choices.old.items ++ filter (λ choice. not (is_refuted state.now (key_conditions x (keys_of keys.now) choice))) (Key place ∷ [])) }
{
    let Ok(number) = u32::try_from(place) else {
        return Err(NoMemory);
    };
    let entry = keys.key_at(place)?;
    let condition = equals_number(x, entry.0, true);
    offer(state, &condition, Choice::Key(number), choices)
}

// Adds the default, unless it is decided that the int is one of the keys.
#[tactic(auto, using(crate::proofs::ChoiceLaws::one_offered))]
fn offer_default(
    state: &SymState,
    x: TermId,
    keys: &Keys<'_>,
    choices: &mut Vec<Choice>,
) -> Result<(), NoMemory>
    requires { IsTerm state.now.nodes x }
    ensures { OnOk result (choices.new.items ≡ choices.old.items ++ filter (λ choice. not (is_refuted state.now (key_conditions x (keys_of keys.now) choice))) (Default ∷ [])) }
{
    let refuted = is_default_refuted(state, x, keys)?;
    if refuted {
        return Ok(());
    }
    choices.push(Choice::Default)?;
    Ok(())
}

// Whether it is decided that the int is one of the keys.
#[tactic(auto, using(kb_ways::proofs::SideLaws::key_sides))]
fn is_default_refuted(state: &SymState, x: TermId, keys: &Keys<'_>) -> Result<bool, NoMemory>
    requires { IsTerm state.now.nodes x }
    ensures { IfOk result (λ refuted. refuted ≡ is_refuted state.now (key_conditions x (keys_of keys.now) Default)) }
{
    for place in 0..keys.len() {
        let entry = keys.key_at(place)?;
        let condition = equals_number(x, entry.0, false);
        if is_against(state, &condition) {
            return Ok(true);
        }
    }
    Ok(false)
}
