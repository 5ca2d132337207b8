//! The making of arrays (JVMS 8 section 6.5, newarray and anewarray).
ghost use Rattle.std.specs.Prelude.{◌≡◌, IfOk};
ghost use Rattle.kb_semantics.specs.Instructions.{component_of_entry};
ghost use Rattle.kb_universe.specs.Faults.{component_of_code};
ghost use Rattle.kb_ways.specs.Needs.{IsFor};
ghost use Rattle.kb_ways.specs.Plans.{here};
ghost use Rattle.kb_ways.specs.Turns.{led_by, told};
ghost use Rattle.kb_steparray.specs.Effects.{makes_array, makes_chosen, makes_of, makes_sized};

use crate::NoMemory;
use kb_frames::{Outcome, SymState, SymValue};
use kb_lookups::declaring_class;
use kb_names::JType;
use kb_picture::Choice;
use kb_universe::component_of_code;
use kb_values::type_of_exact;
use kb_ways::{Turn, an_int, has_room, ill_typed, replaces, throws};

const NEGATIVE_SIZE: &[u8] = b"java/lang/NegativeArraySizeException";

/// newarray, by the length that was chosen. It takes time in proportion to it.
pub fn make_primitives(
    turn: &Turn<'_>,
    state: &mut SymState,
    choice: &Choice,
    code: u8,
) -> Result<Outcome, NoMemory>
    requires { IsFor turn.now state.old }
    ensures { IfOk result (λ outcome. told state.new outcome ≡ led_by turn.now (makes_array turn.now.world.now state.old choice.now (component_of_code code))) }
{
    match component_of_code(code) {
        Some(component) => make(turn, state, choice, &component),
        None => ill_typed(turn, state),
    }
}

/// anewarray, by the length that was chosen. It takes time in proportion to it.
pub fn make_references(
    turn: &Turn<'_>,
    state: &mut SymState,
    choice: &Choice,
    entry: u16,
) -> Result<Outcome, NoMemory>
    requires { IsFor turn.now state.old }
    ensures { IfOk result (λ outcome. told state.new outcome ≡ led_by turn.now (makes_array turn.now.world.now state.old choice.now (component_of_entry turn.now.world.now (here turn.now.world.now state.old) entry))) }
{
    let class = declaring_class(turn.world, turn.method);
    let Some(of) = turn.world.find_type(class, entry) else {
        return ill_typed(turn, state);
    };
    let component = type_of_exact(turn.alloc, of)?;
    make(turn, state, choice, &component)
}

// An array of that component, where there is an int for its length.
fn make(
    turn: &Turn<'_>,
    state: &mut SymState,
    choice: &Choice,
    component: &JType,
) -> Result<Outcome, NoMemory>
    requires { IsFor turn.now state.old }
    ensures { IfOk result (λ outcome. told state.new outcome ≡ led_by turn.now (makes_of turn.now.world.now state.old choice.now component.now)) }
{
    if an_int(state).is_none() {
        return ill_typed(turn, state);
    }
    make_chosen(turn, state, choice, component)
}

// A negative length throws; one above the bound is cut before it comes here.
fn make_chosen(
    turn: &Turn<'_>,
    state: &mut SymState,
    choice: &Choice,
    component: &JType,
) -> Result<Outcome, NoMemory>
    requires { IsFor turn.now state.old }
    ensures { IfOk result (λ outcome. told state.new outcome ≡ led_by turn.now (makes_chosen turn.now.world.now state.old choice.now component.now)) }
{
    match choice {
        Choice::Negative => throws(turn, state, NEGATIVE_SIZE),
        Choice::Size(length) => make_sized(turn, state, component, *length),
        _ => ill_typed(turn, state),
    }
}

// An array of that length stands in the place of the int. Where the stack has no room for the reference, none is made.
fn make_sized(
    turn: &Turn<'_>,
    state: &mut SymState,
    component: &JType,
    length: u32,
) -> Result<Outcome, NoMemory>
    requires { IsFor turn.now state.old }
    ensures { IfOk result (λ outcome. told state.new outcome ≡ led_by turn.now (makes_sized turn.now.world.now state.old component.now length)) }
{
    let kept = state.height().saturating_sub(1);
    if !has_room(turn, state, kept, 1) {
        return ill_typed(turn, state);
    }
    let number = state.make_array(component, length)?;
    replaces(turn, state, 1, &[SymValue::New(number)])
}
