//! Methods by their names, as endings tell them.

ghost use Rattle.std.specs.Prelude.{◌≡◌, IfOk};
ghost use Rattle.kb_semantics.specs.Config.{no_target, target_of};

use crate::NoMemory;
use kb_class::MethodId;
use kb_names::{MethodType, Name, SharedRow, Target};
use kb_semantics::World;
use std::alloc::Global;

/// The method by its class's name, its name and its type; of a number that no method has, empty ones.
pub fn target_of(alloc: Global, world: &World, method: MethodId) -> Result<Target, NoMemory>
    ensures { IfOk result (λ target. target ≡ target_of world.now method) }
{
    let Some(info) = world.find_method(method) else {
        return Ok(no_target(alloc));
    };
    Ok(Target {
        class: Name::from_slice(alloc, world.find_name(info.class))?,
        name: info.name.copied(alloc)?,
        kind: info.kind.copied(alloc)?,
    })
}

// What stands for a method that is none.
fn no_target(alloc: Global) -> Target
    ensures { result ≡ no_target }
{
    Target {
        class: Name::new(alloc),
        name: Name::new(alloc),
        kind: MethodType {
            params: SharedRow::new(),
            result: None,
        },
    }
}
