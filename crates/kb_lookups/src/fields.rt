//! Which objects have a field (JVMS 8 section 6.5).

ghost use Rattle.std.specs.Prelude.{◌≡◌};
ghost use Rattle.kb_semantics.specs.Instructions.{has_field};

use kb_names::ExactType;
use kb_semantics::{FieldSlot, World};

/// Whether an object of the exact type has the slot. It takes no memory.
pub fn has_field(world: &World, kind: &ExactType, field: &FieldSlot) -> bool
    ensures { result ≡ has_field world.now kind.now field.now }
{
    match kind {
        ExactType::Class(name) => world.is_in_chain(name, field.class),
        ExactType::Array(_) => false,
    }
}
