//! What a state becomes when an alternative is taken.
ghost use Rattle.std.specs.Prelude.{◌≡◌, true, IfOk, IfSome, OnOk};
ghost use Rattle.std.specs.Option.{option_map_or};
ghost use Rattle.kb_class.specs.Naming.{Has};
ghost use Rattle.kb_terms.specs.Terms.{IsTerm};
ghost use Rattle.kb_frames.specs.Lent.{begun};
ghost use Rattle.kb_frames.specs.Next.{argument_next, next_is_int};
ghost use Rattle.kb_picture.specs.declared.choice.Choice.TheVariants.{Default, Key};
ghost use Rattle.kb_ways.specs.Asked.{all_asked};
ghost use Rattle.kb_stepint.specs.Choices.{branch_conditions, choices_of, divisor_conditions, key_conditions};
ghost use Rattle.kb_stepint.specs.Looks.{IsLookAt};
ghost use Rattle.kb_stepint.specs.Questions.{HasTermsOf, asks_for, conditions_by};
ghost use Rattle.kb_ways.specs.Needs.{HasTerms, IsFor, IsSide};
ghost use Rattle.kb_ways.specs.Reached.{IsReached};
ghost use Rattle.kb_stepint.specs.Laws.{IsAtInts};
ghost use Rattle.kb_stepint.specs.Takes.{reads_argument, taken};
ghost use Rattle.kb_ways.specs.Plans.{takes_none};
ghost use Rattle.kb_ways.specs.Turns.{led_by, told};
ghost use Rattle.kb_stepint.specs.Keys.{keys_of};
ghost use Rattle.kb_stepint.specs.Effects.{effect_of};

use crate::NoMemory;
use crate::instructions::carry_out;
use crate::keys::Keys;
use crate::look::{Look, look_at};
use crate::questions::IntQuestion;
use kb_code::Cond;
use kb_frames::{Outcome, SymState};
use kb_heap::Bounds;
use kb_picture::{Choice, Origin};
use kb_semantics::World;
use kb_terms::TermId;
use kb_ways::{Side, Turn, ask, branch_condition, equals_number, takes_none};
use std::alloc::Global;

/// Takes an alternative that [`crate::choices_int`] lists for the state. An argument that is read is a new variable, and the
/// state asks for its next choice. Else the conditions of the alternative are added, as far as they are not decided, and the
/// instruction is carried out: it goes on, the run ends, or it is cut at a bound.
///
/// After memory ran out the state is only dropped or undone. It takes time in proportion to the conditions that are added, and
/// to the locals of the method where its first instruction is taken up, whatever the state has met; a throw fills the slots of
/// its new object, and takes time in proportion to the frames that it leaves and the entries of their handler tables.
pub fn take_int(
    alloc: Global,
    world: &World,
    state: &mut SymState,
    choice: &Choice,
    bounds: &Bounds,
) -> Result<Outcome, NoMemory>
    requires reached { IsReached world.now state.old }
    requires int { next_is_int world.now state.old ≡ true }
    requires listed { Has (choices_of world.now state.old bounds.now) choice.now }
    ensures take { IfOk result (λ outcome. told state.new outcome ≡ taken world.now bounds.now state.old choice.now) }
    ensures reached { OnOk result (IsReached world.now state.new) }
{
    let look = look_at(alloc, world, state, bounds);
    take_told(alloc, world, state, choice, bounds, &look)
}

/// Takes an alternative of the step at which was looked.
pub(crate) fn take_told(
    alloc: Global,
    world: &World,
    state: &mut SymState,
    choice: &Choice,
    bounds: &Bounds,
    look: &Look<'_>,
) -> Result<Outcome, NoMemory>
    requires at { IsAtInts world.now state.old }
    requires look { IsLookAt world.now bounds.now state.old look.now }
    ensures take { IfOk result (λ outcome. told state.new outcome ≡ taken world.now bounds.now state.old choice.now) }
    ensures reached { OnOk result (IsReached world.now state.new) }
{
    let outcome = read_or_take_up(alloc, world, state, choice, bounds, look)?;
    // The terms that are lent are those of a pool, which a state that is reached must have.
    let _ = state.pool().nodes();
    Ok(outcome)
}

// Takes up the instruction at which was looked, or reads the next argument.
fn read_or_take_up(
    alloc: Global,
    world: &World,
    state: &mut SymState,
    choice: &Choice,
    bounds: &Bounds,
    look: &Look<'_>,
) -> Result<Outcome, NoMemory>
    requires at { IsAtInts world.now state.old }
    requires look { IsLookAt world.now bounds.now state.old look.now }
    ensures { IfOk result (λ outcome. told state.new outcome ≡ taken world.now bounds.now state.old choice.now) }
{
    match &look.turn {
        Some(turn) => take_up(turn, state, choice, &look.question),
        None => read_or_end(alloc, world, state, bounds),
    }
}

// Takes up the instruction of a turn, by an alternative of what it must be told.
fn take_up(
    turn: &Turn<'_>,
    state: &mut SymState,
    choice: &Choice,
    question: &Option<IntQuestion<'_>>,
) -> Result<Outcome, NoMemory>
    requires terms { HasTerms (begun turn.now.world.now state.old) }
    requires stands { IsFor turn.now state.old }
    requires asked { IfSome question.now (HasTermsOf state.old.nodes) }
    ensures { IfOk result (λ outcome. told state.new outcome ≡ led_by turn.now (effect_of turn.now.world.now (all_asked (begun turn.now.world.now state.old) (conditions_by question.now choice.now)) choice.now turn.now.instr.now)) }
{
    state.begin(turn.world)?;
    ask_for(state, question, choice)?;
    carry_out(turn, state, choice)
}

// Reads the next argument; where all are read, no instruction is taken up.
fn read_or_end(
    alloc: Global,
    world: &World,
    state: &mut SymState,
    bounds: &Bounds,
) -> Result<Outcome, NoMemory>
    ensures { IfOk result (λ outcome. told state.new outcome ≡ option_map_or (reads_argument state.old) (argument_next world.now state.old.method state.old.stage) (takes_none world.now bounds.now state.old)) }
{
    if let Some(kind) = state.next_kind(world) {
        let argument = state.read_count()?;
        state.first_int(Origin::Arg(argument), kind)?;
        return Ok(Outcome::Asks);
    }
    takes_none(alloc, world, bounds, state)
}

// Adds the conditions that an alternative asks for.
fn ask_for(
    state: &mut SymState,
    question: &Option<IntQuestion<'_>>,
    choice: &Choice,
) -> Result<(), NoMemory>
    requires { IfSome question.now (HasTermsOf state.old.nodes) }
    ensures { OnOk result (state.new ≡ all_asked state.old (conditions_by question.now choice.now)) }
{
    match question {
        Some(question) => answer(state, question, choice),
        None => Ok(()),
    }
}

// Adds the conditions that an alternative of what is to be told asks for.
fn answer(state: &mut SymState, question: &IntQuestion<'_>, choice: &Choice) -> Result<(), NoMemory>
    requires { HasTermsOf state.old.nodes question.now }
    ensures { OnOk result (state.new ≡ all_asked state.old (asks_for question.now choice.now)) }
{
    match question {
        IntQuestion::Branch(cond, left, right) => ask_branch(state, *cond, *left, *right, choice),
        IntQuestion::Key(x, keys) => ask_key(state, *x, keys, choice),
        IntQuestion::Divisor(x) => ask_divisor(state, *x, choice),
    }
}

#[tactic(auto, using(kb_ways::proofs::SideLaws::branch_sides))]
fn ask_branch(
    state: &mut SymState,
    cond: Cond,
    left: Side,
    right: Side,
    choice: &Choice,
) -> Result<(), NoMemory>
    requires first { IsSide state.old.nodes left }
    requires second { IsSide state.old.nodes right }
    ensures { OnOk result (state.new ≡ all_asked state.old (branch_conditions cond left right choice.now)) }
{
    match choice {
        Choice::Branch(so) => ask(state, &branch_condition(cond, left, right, *so)),
        _ => Ok(()),
    }
}

#[tactic(auto, using(kb_ways::proofs::SideLaws::key_sides))]
fn ask_divisor(state: &mut SymState, divisor: TermId, choice: &Choice) -> Result<(), NoMemory>
    requires { IsTerm state.old.nodes divisor }
    ensures { OnOk result (state.new ≡ all_asked state.old (divisor_conditions divisor choice.now)) }
{
    match choice {
        Choice::Zero => ask(state, &equals_number(divisor, 0, true)),
        Choice::NotZero => ask(state, &equals_number(divisor, 0, false)),
        _ => Ok(()),
    }
}

fn ask_key(
    state: &mut SymState,
    x: TermId,
    keys: &Keys<'_>,
    choice: &Choice,
) -> Result<(), NoMemory>
    requires { IsTerm state.old.nodes x }
    ensures { OnOk result (state.new ≡ all_asked state.old (key_conditions x (keys_of keys.now) choice.now)) }
{
    match choice {
        Choice::Key(place) => ask_one_key(state, x, keys, *place as usize),
        Choice::Default => ask_default(state, x, keys),
        _ => Ok(()),
    }
}

// That the int is the key of that place.
#[tactic(auto, using(kb_ways::proofs::SideLaws::key_sides))]
fn ask_one_key(
    state: &mut SymState,
    x: TermId,
    keys: &Keys<'_>,
    place: usize,
) -> Result<(), NoMemory>
    requires { IsTerm state.old.nodes x }
    ensures { OnOk result (state.new ≡ all_asked state.old (key_conditions x (keys_of keys.now) (Key place))) }
{
    if place >= keys.len() {
        return Ok(());
    }
    let entry = keys.key_at(place)?;
    ask(state, &equals_number(x, entry.0, true))
}

// That the int is none of the keys.
#[tactic(auto, using(kb_ways::proofs::SideLaws::key_sides))]
fn ask_default(state: &mut SymState, x: TermId, keys: &Keys<'_>) -> Result<(), NoMemory>
    requires { IsTerm state.old.nodes x }
    ensures { OnOk result (state.new ≡ all_asked state.old (key_conditions x (keys_of keys.now) Default)) }
{
    for place in 0..keys.len() {
        let entry = keys.key_at(place)?;
        ask(state, &equals_number(x, entry.0, false))?;
    }
    Ok(())
}
