//! How the steps of a method begin.
ghost use Rattle.std.specs.Prelude.{◌≡◌, ◌<◌, length, IfOk, IfSome};
ghost use Rattle.kb_classes.specs.World.{methods_in};
ghost use Rattle.kb_picture.specs.declared.choice.Init.TheVariants.{Lazy};
ghost use Rattle.kb_frames.specs.State.{start_state};
ghost use Rattle.kb_steps.specs.Stepping.{IsStepping, first_of};

use crate::NoMemory;
use kb_class::MethodId;
use kb_frames::{SymState, start};
use kb_picture::Init;
use kb_resolution::has_left_out;
use kb_rows::Held;
use kb_world::World;
use std::alloc::Global;

/// The state before the first step of a method, in a box, under lazy initialisation. None where there is no such method, or where a
/// parameter or its result is of a type that is left out.
pub fn begin(
    alloc: Global,
    world: &World,
    method: MethodId,
) -> Result<Option<Held<SymState>>, NoMemory>
    ensures first { IfOk result (λ begun. begun ≡ first_of world.now method) }
    ensures stepping { IfOk result (λ begun. IfSome begun (IsStepping world.now)) }
{
    match world.find_method(method) {
        Some(_) => begin_known(alloc, world, method),
        None => Ok(None),
    }
}

// The state of a method that there is.
fn begin_known(
    alloc: Global,
    world: &World,
    method: MethodId,
) -> Result<Option<Held<SymState>>, NoMemory>
    requires { method.0 < length (methods_in world.now.classes) }
    ensures first { IfOk result (λ begun. begun ≡ first_of world.now method) }
    ensures stepping { IfOk result (λ begun. IfSome begun (IsStepping world.now)) }
{
    if has_left_out(&world.method_of(method).kind) {
        return Ok(None);
    }
    let state = first_state(alloc, world, method)?;
    Ok(Some(Held::new(alloc, state)?))
}

fn first_state(alloc: Global, world: &World, method: MethodId) -> Result<SymState, NoMemory>
    requires { IsStepping world.now (start_state Lazy method) }
    ensures state { IfOk result (λ state. state ≡ start_state Lazy method) }
    ensures stepping { IfOk result (IsStepping world.now) }
{
    let state = start(alloc, world, method, Init::Lazy)?;
    Ok(state)
}
