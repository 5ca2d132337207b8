//! Types of objects (JVMS 8 section 6.5).

ghost use Rattle.std.specs.Prelude.{◌≡◌, IfOk};
ghost use Rattle.std.specs.Option.{option_map_or};
ghost use Rattle.kb_arith.specs.Word.{truth};
ghost use Rattle.kb_classes.specs.Subtypes.{type_of_exact};
ghost use Rattle.kb_semantics.specs.Instructions.{is_instance};

use crate::NoMemory;
use kb_heap::Heap;
use kb_names::{Component, ExactType, JType};
use kb_semantics::World;
use std::alloc::Global;

/// Whether the reference leads to an object of the type: `null` for null.
pub fn is_instance(
    world: &World,
    heap: &Heap,
    high: &ExactType,
    reference: Option<u32>,
    null: bool,
) -> bool
    ensures { result ≡ option_map_or (is_instance world.now heap.now high.now) reference null }
{
    let Some(object) = reference else {
        return null;
    };
    match heap.objects.as_slice().get(object as usize) {
        Some(of) => world.exact_subtype(&of.kind, high),
        None => false,
    }
}

/// 1 where that is so, else 0.
pub fn truth(so: bool) -> i32
    ensures { result ≡ truth so }
{
    if so { 1 } else { 0 }
}

/// The type of the objects of the exact type.
pub fn type_of_exact(alloc: Global, of: &ExactType) -> Result<JType, NoMemory>
    ensures { IfOk result (λ type. type ≡ type_of_exact of.now) }
{
    match of {
        ExactType::Class(name) => Ok(JType::Class(name.copied(alloc)?)),
        ExactType::Array(component) => {
            let component = component.copied(alloc)?;
            Ok(JType::Array(Component::new(alloc, component)?))
        }
    }
}
