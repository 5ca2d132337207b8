//! How long arrays are in a state.
ghost use Rattle.std.specs.Prelude.{◌≡◌};
ghost use Rattle.kb_frames.specs.Arrays.{length_made, length_of, length_seen};

use kb_frames::{SymState, SymValue};
use kb_names::ExactType;
use kb_picture::Length;

/// How many elements the array has that a value is: one of the picture that is not longer than a bound, or one that the run has
/// made. None of every other value.
pub(crate) fn length_of(state: &SymState, value: SymValue) -> Option<usize>
    ensures { result ≡ length_of state.now value }
{
    match value {
        SymValue::Obj(number) => {
            let object = state.picture().objects.as_slice().get(number as usize)?;
            length_seen(&object.kind, object.length)
        }
        SymValue::New(number) => {
            let object = state.made_objects().get(number as usize)?;
            length_made(&object.kind, object.values.as_slice().len())
        }
        SymValue::Int(_) | SymValue::Null | SymValue::Literal(_) | SymValue::Loc(_) => None,
    }
}

// How long an object of the picture is, of that exact type and length.
fn length_seen(kind: &ExactType, length: Length) -> Option<usize>
    ensures { result ≡ length_seen kind.now length }
{
    match (kind, length) {
        (ExactType::Array(_), Length::Is(count)) => Some(count as usize),
        (ExactType::Array(_), _) | (ExactType::Class(_), _) => None,
    }
}

// How long an object is that the run has made, of that exact type and with so many values.
fn length_made(kind: &ExactType, count: usize) -> Option<usize>
    ensures { result ≡ length_made kind.now count }
{
    match kind {
        ExactType::Array(_) => Some(count),
        ExactType::Class(_) => None,
    }
}
