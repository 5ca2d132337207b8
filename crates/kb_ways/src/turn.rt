//! What surrounds one step.
ghost use Rattle.std.specs.Prelude.{◌≡◌, ◌||◌, is_some, nat_le, option_map, IfSome};
ghost use Rattle.kb_semantics.specs.Config.{instruction_at};
ghost use Rattle.kb_frames.specs.Next.{argument_next, method_now, offset_now};
ghost use Rattle.kb_ways.specs.Needs.{IsTurnAt};
ghost use Rattle.kb_ways.specs.Plans.{taken_up};
ghost use Rattle.kb_ways.specs.Turns.{found_of};

use kb_class::{MethodCode, MethodId};
use kb_code::Instr;
use kb_frames::SymState;
use kb_heap::Bounds;
use kb_lookups::instruction_at;
use kb_semantics::World;
use std::alloc::Global;

/// What stays the same while an instruction is carried out.
#[derive(Drop)]
pub struct Turn<'w> {
    pub alloc: Global,
    pub world: &'w World,
    pub bounds: Bounds,
    /// Where the current frame stands.
    pub method: MethodId,
    pub at: u32,
    pub instr: &'w Instr,
    /// The offset behind the instruction.
    pub next: u32,
    /// The code of the method.
    pub code: &'w MethodCode,
}

/// The turn of the instruction that a state takes up: None where an argument is read first, where as many instructions were
/// carried out as may be, and where the code has run off its end. It takes no memory.
pub fn taken_up<'w>(
    alloc: Global,
    world: &'w World,
    bounds: &Bounds,
    state: &SymState,
) -> Option<Turn<'w>>
    ensures found { option_map found_of result ≡ taken_up world.now bounds.now state.now }
    ensures turn { IfSome result (IsTurnAt world.now bounds.now state.now) }
{
    if takes_up_none(world, bounds, state) {
        return None;
    }
    turn_at(alloc, world, bounds, state)
}

// Whether no instruction is taken up: an argument is read, or as many instructions were carried out as may be.
#[tactic(auto, using(crate::proofs::TakeLaws::kind_is))]
fn takes_up_none(world: &World, bounds: &Bounds, state: &SymState) -> bool
    ensures { result ≡ (is_some (argument_next world.now state.now.method state.now.stage) || nat_le bounds.now.run.steps state.now.carried) }
{
    match state.next_kind(world) {
        Some(_) => true,
        None => bounds.run.steps <= state.carried(),
    }
}

// The turn of the instruction at which a state stands.
fn turn_at<'w>(
    alloc: Global,
    world: &'w World,
    bounds: &Bounds,
    state: &SymState,
) -> Option<Turn<'w>>
    ensures found { option_map found_of result ≡ instruction_at world.now (method_now state.now.method state.now.stage) (offset_now state.now.stage) }
    ensures turn { IfSome result (IsTurnAt world.now bounds.now state.now) }
{
    let (method, at) = state.stands_at();
    let found = instruction_at(world, method, at)?;
    let code = world.find_code(method)?;
    Some(Turn {
        alloc,
        world,
        bounds: *bounds,
        method,
        at,
        instr: found.instr,
        next: found.next,
        code,
    })
}
