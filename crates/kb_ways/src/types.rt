//! The exact types of objects, and of which types they are.
ghost use Rattle.std.specs.Prelude.{◌≡◌, IfOk};
ghost use Rattle.kb_classes.specs.Subtypes.{type_of_exact};
ghost use Rattle.kb_heap.specs.Heap.{literal};
ghost use Rattle.kb_ways.specs.Types.{is_object_of};

use crate::NoMemory;
use crate::turn::Turn;
use kb_frames::{SymState, SymValue};
use kb_names::{ExactType, JType};

const STRING: &[u8] = b"java/lang/String";

/// The exact type of a literal, which shares the name of the class.
pub fn literal_type(turn: &Turn<'_>) -> Result<ExactType, NoMemory>
    ensures { IfOk result (λ kind. kind ≡ literal.kind) }
{
    let name = turn.world.shared_name(turn.alloc, STRING)?;
    Ok(ExactType::Class(name))
}

/// Whether the value is an object of the type. It takes no memory but of a literal.
pub fn is_object_of(
    turn: &Turn<'_>,
    state: &SymState,
    value: SymValue,
    of: &JType,
) -> Result<bool, NoMemory>
    ensures { IfOk result (λ so. so ≡ is_object_of turn.now.world.now state.now of.now value) }
{
    if let SymValue::Literal(_) = value {
        let kind = literal_type(turn)?;
        return Ok(turn.world.subtype(&kind, of));
    }
    match state.exact_type_of(value) {
        Some(kind) => Ok(turn.world.subtype(kind, of)),
        None => Ok(false),
    }
}

/// Whether it is one of the other exact type. It takes no memory but of a literal.
pub fn is_object_of_exact(
    turn: &Turn<'_>,
    state: &SymState,
    value: SymValue,
    of: &ExactType,
) -> Result<bool, NoMemory>
    ensures { IfOk result (λ so. so ≡ is_object_of turn.now.world.now state.now (type_of_exact of.now) value) }
{
    if let SymValue::Literal(_) = value {
        let kind = literal_type(turn)?;
        return Ok(turn.world.exact_subtype(&kind, of));
    }
    match state.exact_type_of(value) {
        Some(kind) => Ok(turn.world.exact_subtype(kind, of)),
        None => Ok(false),
    }
}
