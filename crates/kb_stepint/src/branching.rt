//! Branches and switches (JVMS 8 section 6.5). Which way is taken was chosen.
ghost use Rattle.std.specs.Prelude.{◌≡◌, drop, is_some, IfOk};
ghost use Rattle.kb_frames.specs.Lent.{stack_of};
ghost use Rattle.kb_picture.specs.declared.choice.Choice.TheVariants.{Key};
ghost use Rattle.kb_stepint.specs.Effects.{branch_way, branches, switch_way, switches};
ghost use Rattle.kb_ways.specs.Operands.{an_int, two_ints};
ghost use Rattle.kb_ways.specs.Needs.{IsFor};
ghost use Rattle.kb_ways.specs.Turns.{led, told, led_by};
ghost use Rattle.kb_stepint.specs.Keys.{keys_of};

use crate::NoMemory;
use crate::keys::Keys;
use kb_frames::{Outcome, SymState};
use kb_picture::Choice;
use kb_ways::{Turn, an_int, ill_typed, jumps, replaces, two_ints};

/// if<cond>
pub(crate) fn if_int(
    turn: &Turn<'_>,
    state: &mut SymState,
    target: u32,
    choice: &Choice,
) -> Result<Outcome, NoMemory>
    requires { IsFor turn.now state.old }
    ensures { IfOk result (λ outcome. told state.new outcome ≡ led_by turn.now (branches state.old (is_some (an_int (stack_of state.old.stage))) 1 target choice.now)) }
{
    match an_int(state) {
        Some(_) => branch(turn, state, 1, target, choice),
        None => ill_typed(turn, state),
    }
}

/// if_icmp<cond>
pub(crate) fn if_pair(
    turn: &Turn<'_>,
    state: &mut SymState,
    target: u32,
    choice: &Choice,
) -> Result<Outcome, NoMemory>
    requires { IsFor turn.now state.old }
    ensures { IfOk result (λ outcome. told state.new outcome ≡ led_by turn.now (branches state.old (is_some (two_ints (stack_of state.old.stage))) 2 target choice.now)) }
{
    match two_ints(state) {
        Some(_) => branch(turn, state, 2, target, choice),
        None => ill_typed(turn, state),
    }
}

/// tableswitch, lookupswitch
pub(crate) fn switch(
    turn: &Turn<'_>,
    state: &mut SymState,
    keys: &Keys<'_>,
    default: u32,
    choice: &Choice,
) -> Result<Outcome, NoMemory>
    requires { IsFor turn.now state.old }
    ensures { IfOk result (λ outcome. told state.new outcome ≡ led_by turn.now (switches state.old (keys_of keys.now) default choice.now)) }
{
    match an_int(state) {
        Some(_) => switch_by(turn, state, keys, default, choice),
        None => ill_typed(turn, state),
    }
}

// A branch, with so many ints on the stack.
fn branch(
    turn: &Turn<'_>,
    state: &mut SymState,
    count: usize,
    target: u32,
    choice: &Choice,
) -> Result<Outcome, NoMemory>
    requires { IsFor turn.now state.old }
    ensures { IfOk result (λ outcome. told state.new outcome ≡ led turn.now state.old (branch_way state.old target (drop count (stack_of state.old.stage)) choice.now)) }
{
    match choice {
        Choice::Branch(true) => jumps(turn, state, count, target),
        Choice::Branch(false) => replaces(turn, state, count, &[]),
        _ => ill_typed(turn, state),
    }
}

// A switch, with an int on the stack.
fn switch_by(
    turn: &Turn<'_>,
    state: &mut SymState,
    keys: &Keys<'_>,
    default: u32,
    choice: &Choice,
) -> Result<Outcome, NoMemory>
    requires { IsFor turn.now state.old }
    ensures { IfOk result (λ outcome. told state.new outcome ≡ led turn.now state.old (switch_way (keys_of keys.now) default (drop 1 (stack_of state.old.stage)) choice.now)) }
{
    match choice {
        Choice::Key(place) => switch_to(turn, state, keys, *place as usize),
        Choice::Default => jumps(turn, state, 1, default),
        _ => ill_typed(turn, state),
    }
}

// To the target of the key of that place.
fn switch_to(
    turn: &Turn<'_>,
    state: &mut SymState,
    keys: &Keys<'_>,
    place: usize,
) -> Result<Outcome, NoMemory>
    requires { IsFor turn.now state.old }
    ensures { IfOk result (λ outcome. told state.new outcome ≡ led turn.now state.old (switch_way (keys_of keys.now) 0 (drop 1 (stack_of state.old.stage)) (Key place))) }
{
    if place >= keys.len() {
        return ill_typed(turn, state);
    }
    let entry = keys.key_at(place)?;
    jumps(turn, state, 1, entry.1)
}
