//! Which handler of a method takes an exception (JVMS 8 section 2.10).

ghost use Rattle.std.specs.Prelude.{◌≡◌};
ghost use Rattle.kb_semantics.specs.Ways.{handler_among, handler_at, is_taken_by};

use crate::methods::declaring_class;
use kb_class::{ClassId, MethodId};
use kb_code::Handler;
use kb_names::ExactType;
use kb_semantics::World;

/// Where the first handler of the method goes on that covers the offset and takes an object of the exact type. It takes no
/// memory.
pub fn handler_at(world: &World, method: MethodId, at: u32, kind: &ExactType) -> Option<u32>
    ensures { result ≡ handler_at world.now method at kind.now }
{
    match world.find_code(method) {
        Some(code) => {
            let class = declaring_class(world, method);
            handler_among(world, class, at, kind, code.handlers.as_slice())
        }
        None => None,
    }
}

/// Where the first of these handlers goes on that covers the offset and takes an object of the exact type. It takes no memory.
pub fn handler_among(
    world: &World,
    class: ClassId,
    at: u32,
    kind: &ExactType,
    handlers: &[Handler],
) -> Option<u32>
    ensures { result ≡ handler_among world.now class.0 at kind.now handlers.now }
{
    let mut rest = handlers;
    while let [handler, others @ ..] = rest {
        if is_taken_by(world, class, at, kind, handler) {
            return Some(u32::from(handler.target));
        }
        rest = others;
    }
    None
}

/// Whether the handler covers the offset and takes an object of the exact type. It takes no memory.
pub fn is_taken_by(
    world: &World,
    class: ClassId,
    at: u32,
    kind: &ExactType,
    handler: &Handler,
) -> bool
    ensures { result ≡ is_taken_by world.now class.0 at kind.now handler.now }
{
    if at < u32::from(handler.start) {
        return false;
    }
    if at >= u32::from(handler.end) {
        return false;
    }
    if handler.catch == 0 {
        return true;
    }
    match world.find_type(class, handler.catch) {
        Some(high) => world.exact_subtype(kind, high),
        None => false,
    }
}
