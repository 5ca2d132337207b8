//! Where a run stands, as endings tell it.
ghost use Rattle.std.specs.Prelude.{◌≡◌, IfOk};
ghost use Rattle.kb_semantics.specs.Config.{place_in_code};

use crate::NoMemory;
use kb_class::MethodId;
use kb_heap::Place;
use kb_lookups::target_of;
use kb_semantics::World;
use std::alloc::Global;

/// An offset of a method's code.
pub(crate) fn place_in_code(
    alloc: Global,
    world: &World,
    method: MethodId,
    at: u32,
) -> Result<Place, NoMemory>
    ensures { IfOk result (λ place. place ≡ place_in_code world.now method at) }
{
    let method = target_of(alloc, world, method)?;
    Ok(Place { method, at })
}
