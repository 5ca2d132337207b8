//! The arguments of a method, by their types.
ghost use Rattle.std.specs.Prelude.{◌≡◌, Some, option_map, slice_get};
ghost use Rattle.kb_semantics.specs.Inputs.{argument_types};
ghost use Rattle.kb_picture.specs.Queries.{kind_for};
ghost use Rattle.kb_picture.specs.WellTyped.{is_reference_type};
ghost use Rattle.kb_kinds.specs.Kinds.{type_of};

use kb_class::{MethodInfo, is_static};
use kb_names::JType;
use kb_semantics::World;
use kb_terms::VarKind;

/// An argument that is to be read.
#[derive(Clone, Copy)]
pub enum Argument<'w> {
    Receiver,
    Typed(&'w JType),
}

/// The argument of that number: where the method is not static, the first one is the receiver.
#[tactic(auto, using(crate::proofs::ArgumentLaws::of_static, crate::proofs::ArgumentLaws::receiver_first, crate::proofs::ArgumentLaws::behind_receiver))]
pub fn argument_at<'w>(_world: &World, info: &'w MethodInfo, number: usize) -> Option<Argument<'w>>
    ensures { option_map (type_of _world.now info.now.class.0) result ≡ slice_get (argument_types _world.now info.now) number }
{
    let params = info.kind.params.as_slice();
    if is_static(info.access) {
        return match params.get(number) {
            Some(kind) => Some(Argument::Typed(kind)),
            None => None,
        };
    }
    if number == 0 {
        return Some(Argument::Receiver);
    }
    match params.get(number - 1) {
        Some(kind) => Some(Argument::Typed(kind)),
        None => None,
    }
}

/// Whether the type is one of references (JVMS 8 section 2.4).
pub fn is_reference(kind: &JType) -> bool
    ensures { result ≡ is_reference_type kind.now }
{
    matches!(kind, JType::Class(_) | JType::Array(_))
}

/// The kind of the variable of a slot of the type: a boolean's is 0 or 1, any other is an int of 32 bits.
pub fn variable_kind(kind: &JType) -> VarKind
    ensures { result ≡ kind_for (Some kind.now) }
{
    match kind {
        JType::Bool => VarKind::Bool,
        _ => VarKind::Int,
    }
}
