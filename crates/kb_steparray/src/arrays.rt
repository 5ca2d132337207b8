//! Arrays of a state: their components, lengths and elements.
ghost use Rattle.std.specs.Prelude.{◌≡◌, option_map, IfOk};
ghost use Rattle.std.specs.Option.{option_copied};
ghost use Rattle.kb_semantics.specs.Values.{takes_component};
ghost use Rattle.kb_steparray.specs.Arrays.{array_of, component_of, plain_array, takes_object};

use crate::NoMemory;
use crate::lengths::length_of;
use kb_code::Elem;
use kb_frames::{SymState, SymValue};
use kb_lookups::takes_component;
use kb_names::{ExactType, JType};
use kb_ways::{Turn, is_object_of};

/// An array of a state: its component, and how many elements it has.
#[derive(Clone, Copy)]
pub(crate) struct ArrayAt<'s> {
    pub component: &'s JType,
    pub length: usize,
}

// The component of an array of the picture, or of one that the run has made.
fn component_of(state: &SymState, value: SymValue) -> Option<&JType>
    ensures { option_copied result ≡ component_of state.now value }
{
    match state.exact_type_of(value)? {
        ExactType::Array(component) => Some(component),
        ExactType::Class(_) => None,
    }
}

/// The array that a value is, where an instruction of that kind takes it.
pub(crate) fn array_of(state: &SymState, elem: Elem, value: SymValue) -> Option<ArrayAt<'_>>
    ensures { option_map plain_array result ≡ array_of state.now (takes_component elem) value }
{
    let component = component_of(state, value)?;
    if !takes_component(elem, component) {
        return None;
    }
    let length = length_of(state, value)?;
    Some(ArrayAt { component, length })
}

/// Whether an array of the component may have the value: null, or an object that fits it.
pub(crate) fn takes_object(
    turn: &Turn<'_>,
    state: &SymState,
    component: &JType,
    value: SymValue,
) -> Result<bool, NoMemory>
    ensures { IfOk result (λ so. so ≡ takes_object turn.now.world.now state.now component.now value) }
{
    match value {
        SymValue::Int(_) | SymValue::Null => Ok(true),
        SymValue::Obj(_) | SymValue::Literal(_) | SymValue::New(_) | SymValue::Loc(_) => {
            is_object_of(turn, state, value, component)
        }
    }
}
