//! What a step asks of the method of the current frame.
ghost use Rattle.std.specs.Prelude.{◌≡◌, nat_lt};
ghost use Rattle.std.specs.Option.{option_copied};
ghost use Rattle.kb_semantics.specs.Config.{max_locals_of, result_of};
ghost use Rattle.kb_frames.specs.Next.{method_now};
ghost use Rattle.kb_ways.specs.Needs.{IsFor};

use crate::turn::Turn;
use kb_class::MethodId;
use kb_frames::SymState;
use kb_names::JType;
use kb_semantics::World;

/// Whether a local of that number lies below the method's limit, max_locals (JVMS 8 section 4.7.3).
pub fn is_local(turn: &Turn<'_>, _state: &SymState, local: u16) -> bool
    requires { IsFor turn.now _state.now }
    ensures { result ≡ nat_lt local (max_locals_of turn.now.world.now (method_now _state.now.method _state.now.stage)) }
{
    local < turn.code.max_locals
}

/// The type of a method's result: None of void, and where there is no such method.
pub fn result_of(world: &World, method: MethodId) -> Option<&JType>
    ensures { option_copied result ≡ result_of world.now method }
{
    match world.find_method(method) {
        Some(info) => info.kind.result.as_ref(),
        None => None,
    }
}
