//! Stores of elements (JVMS 8 section 6.5, iastore, aastore and bastore).
ghost use Rattle.std.specs.Prelude.{◌≡◌, drop, Some, IfOk};
ghost use Rattle.kb_frames.specs.Lent.{stack_of};
ghost use Rattle.kb_ways.specs.Needs.{HasTerms, IsFor, IsTermOf};
ghost use Rattle.kb_ways.specs.Slots.{put_in};
ghost use Rattle.kb_ways.specs.Turns.{led, led_by, told};
ghost use Rattle.kb_ways.specs.Ways.{with_stack};
ghost use Rattle.kb_steparray.specs.Effects.{store_at, store_chosen, store_in, stores_element};

use crate::NoMemory;
use crate::arrays::{array_of, takes_object};
use crate::loads::{INDEX_OUTSIDE, NULL_POINTER};
use crate::operands::an_element_and_value;
use kb_code::Elem;
use kb_frames::{Outcome, SymState, SymValue};
use kb_names::JType;
use kb_ways::{Turn, has_room, ill_typed, keep, put_in, replaces, throws};

const ARRAY_STORE: &[u8] = b"java/lang/ArrayStoreException";

/// iastore, aastore, bastore, by the place that was chosen: with none the index is outside. A reference must fit the exact
/// component of the array. It takes constant time.
#[tactic(auto, using(crate::proofs::OperandLaws::value_there))]
pub fn store_element(turn: &Turn<'_>, state: &mut SymState, elem: Elem) -> Result<Outcome, NoMemory>
    requires terms { HasTerms state.old }
    requires stands { IsFor turn.now state.old }
    ensures { IfOk result (λ outcome. told state.new outcome ≡ led_by turn.now (stores_element turn.now.world.now state.old elem)) }
{
    match an_element_and_value(state, elem) {
        Some((array, _, value)) => store_in(turn, state, elem, array, value),
        None => ill_typed(turn, state),
    }
}

fn store_in(
    turn: &Turn<'_>,
    state: &mut SymState,
    elem: Elem,
    array: SymValue,
    value: SymValue,
) -> Result<Outcome, NoMemory>
    requires terms { HasTerms state.old }
    requires stands { IsFor turn.now state.old }
    requires term { IsTermOf state.old.nodes (Some value) }
    ensures { IfOk result (λ outcome. told state.new outcome ≡ led_by turn.now (store_in turn.now.world.now state.old elem array value)) }
{
    if let SymValue::Null = array {
        return throws(turn, state, NULL_POINTER);
    }
    let Some(found) = array_of(state, elem, array) else {
        return ill_typed(turn, state);
    };
    let component = found.component.copied(turn.alloc)?;
    store_chosen(turn, state, &component, array, value)
}

// With no place the index is outside.
fn store_chosen(
    turn: &Turn<'_>,
    state: &mut SymState,
    component: &JType,
    array: SymValue,
    value: SymValue,
) -> Result<Outcome, NoMemory>
    requires terms { HasTerms state.old }
    requires stands { IsFor turn.now state.old }
    requires term { IsTermOf state.old.nodes (Some value) }
    ensures { IfOk result (λ outcome. told state.new outcome ≡ led_by turn.now (store_chosen turn.now.world.now state.old component.now array state.old.chosen value)) }
{
    match state.chosen() {
        Some(place) => store_fitting(turn, state, component, array, place, value),
        None => throws(turn, state, INDEX_OUTSIDE),
    }
}

// The value must be null or an object that fits the component, or it is an int.
fn store_fitting(
    turn: &Turn<'_>,
    state: &mut SymState,
    component: &JType,
    array: SymValue,
    place: u32,
    value: SymValue,
) -> Result<Outcome, NoMemory>
    requires terms { HasTerms state.old }
    requires stands { IsFor turn.now state.old }
    requires term { IsTermOf state.old.nodes (Some value) }
    ensures { IfOk result (λ outcome. told state.new outcome ≡ led_by turn.now (store_chosen turn.now.world.now state.old component.now array (Some place) value)) }
{
    if takes_object(turn, state, component, value)? {
        store_at(turn, state, component, array, place, value)
    } else {
        throws(turn, state, ARRAY_STORE)
    }
}

// What the component keeps of the value is put at the place, where the stack that is left has room.
fn store_at(
    turn: &Turn<'_>,
    state: &mut SymState,
    component: &JType,
    array: SymValue,
    place: u32,
    value: SymValue,
) -> Result<Outcome, NoMemory>
    requires terms { HasTerms state.old }
    requires stands { IsFor turn.now state.old }
    requires term { IsTermOf state.old.nodes (Some value) }
    ensures { IfOk result (λ outcome. told state.new outcome ≡ led_by turn.now (store_at turn.now.world.now state.old component.now array place value)) }
{
    let kept = state.height().saturating_sub(3);
    if !has_room(turn, state, kept, 0) {
        return ill_typed(turn, state);
    }
    match keep(state, component, value)? {
        Some(value) => store_kept(turn, state, array, place, value),
        None => ill_typed(turn, state),
    }
}

// A value that is kept is put at a place of the array, and the operands are off the stack.
fn store_kept(
    turn: &Turn<'_>,
    state: &mut SymState,
    array: SymValue,
    place: u32,
    value: SymValue,
) -> Result<Outcome, NoMemory>
    requires { IsFor turn.now state.old }
    ensures { IfOk result (λ outcome. told state.new outcome ≡ led turn.now (put_in array place value state.old) (with_stack state.old (drop 3 (stack_of state.old.stage)))) }
{
    put_in(state, array, place, value);
    let outcome = replaces(turn, state, 3, &[])?;
    Ok(outcome)
}
