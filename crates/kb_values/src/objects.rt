//! Objects, and the fields that instructions find in them (JVMS 8 sections 2.3, 2.4 and 6.5).

ghost use Rattle.std.specs.Prelude.{◌≡◌, option_and_then, IfOk};
ghost use Rattle.kb_heap.specs.declared.heap.Object.{Object as PlainObject};
ghost use Rattle.kb_heap.specs.Heap.{object_at};
ghost use Rattle.kb_semantics.specs.Instructions.{field_of};
ghost use Rattle.kb_semantics.specs.Values.{new_object};

use crate::NoMemory;
use kb_heap::{Heap, Object, Value};
use kb_lookups::{default_values, has_field};
use kb_names::{ExactType, Name};
use kb_semantics::{FieldSlot, World};
use std::alloc::Global;

/// A new object of the class.
pub fn new_object(alloc: Global, world: &World, class: Name) -> Result<Object, NoMemory>
    ensures { IfOk result (λ object. object ≡ new_object world.now class) }
{
    let values = default_values(alloc, world.slots_named(&class))?;
    Ok(Object {
        kind: ExactType::Class(class),
        values,
    })
}

/// What the object has in the slot of the field, where it has that.
pub fn field_of(world: &World, heap: &Heap, object: u32, field: &FieldSlot) -> Option<Value>
    ensures { result ≡ option_and_then (λ (of : PlainObject). field_of world.now of field.now) (object_at heap.now object) }
{
    let of = heap.objects.as_slice().get(object as usize)?;
    if !has_field(world, &of.kind, field) {
        return None;
    }
    of.values.as_slice().get(field.slot as usize).copied()
}
