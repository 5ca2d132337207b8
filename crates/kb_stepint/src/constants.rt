//! Instructions that push an int that the code tells (JVMS 8 section 6.5).
ghost use Rattle.std.specs.Prelude.{◌≡◌, IfOk};
ghost use Rattle.kb_classes.specs.World.{int_entry_of};
ghost use Rattle.kb_semantics.specs.Config.{class_number};
ghost use Rattle.kb_frames.specs.Next.{method_now};
ghost use Rattle.kb_ways.specs.Plans.{planned};
ghost use Rattle.kb_stepint.specs.Effects.{pushes_int};
ghost use Rattle.kb_ways.specs.Needs.{IsFor};
ghost use Rattle.kb_ways.specs.Turns.{told, led_by};

use crate::NoMemory;
use kb_class::MethodId;
use kb_frames::{Outcome, SymState, SymValue};
use kb_lookups::declaring_class;
use kb_semantics::World;
use kb_ways::{Turn, constant, ill_typed, replaces};

/// iconst, bipush, sipush
pub(crate) fn push_int(
    turn: &Turn<'_>,
    state: &mut SymState,
    value: i32,
) -> Result<Outcome, NoMemory>
    requires { IsFor turn.now state.old }
    ensures { IfOk result (λ outcome. told state.new outcome ≡ led_by turn.now (pushes_int state.old value)) }
{
    let term = constant(state, value)?;
    replaces(turn, state, 0, &[SymValue::Int(term)])
}

/// ldc of an int
pub(crate) fn load_constant(
    turn: &Turn<'_>,
    state: &mut SymState,
    entry: u16,
) -> Result<Outcome, NoMemory>
    requires { IsFor turn.now state.old }
    ensures { IfOk result (λ outcome. told state.new outcome ≡ led_by turn.now (planned state.old (int_entry_of turn.now.world.now (class_number turn.now.world.now (method_now state.old.method state.old.stage)) entry) (pushes_int state.old))) }
{
    match int_entry(turn.world, turn.method, entry) {
        Some(value) => push_int(turn, state, value),
        None => ill_typed(turn, state),
    }
}

// The int of an entry of the class that declares a method.
fn int_entry(world: &World, method: MethodId, entry: u16) -> Option<i32>
    ensures { result ≡ int_entry_of world.now (class_number world.now method) entry }
{
    world.find_int(declaring_class(world, method), entry)
}
