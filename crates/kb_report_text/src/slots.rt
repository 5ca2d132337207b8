//! The slots in the lines of a report.
ghost use Rattle.std.specs.Prelude.{◌≡◌, ◌++◌, [], OnOk};
ghost use Rattle.std.specs.Option.{option_copied, option_map_or};
ghost use Rattle.kb_names.specs.Escapes.{name_text};
ghost use Rattle.kb_report_text.specs.Slots.{field_text, field_of_type, field_of, slot_text};
ghost use Rattle.kb_semantics.specs.Config.{class_name};

use crate::NoMemory;
use crate::naming::NamedWorld;
use kb_class::ClassId;
use kb_names::ExactType;
use kb_path_words::{Text, write_numbered};
use kb_picture::{Origin, PicObject};
use kb_semantics::{FieldSlot, World};

// The name of a class; nothing where there is no such class.
fn write_class_name(text: &mut Text, world: &NamedWorld<'_>, class: ClassId) -> Result<(), NoMemory>
    ensures { OnOk result (text.new ≡ text.old ++ name_text (class_name world.now class.0)) }
{
    match world.world().class_at(class) {
        Some(class) => text.name(class.name()),
        None => Ok(()),
    }
}

/// A field, as a slot names it.
#[tactic(auto, unfolding(crate::specs::Slots::field_text))]
pub fn write_field(
    text: &mut Text,
    world: &NamedWorld<'_>,
    field: &FieldSlot,
) -> Result<(), NoMemory>
    ensures { OnOk result (text.new ≡ text.old ++ field_text world.now field.now) }
{
    write_class_name(text, world, field.class)?;
    text.put(".")?;
    text.name(&field.name)?;
    if !world.has_namesake(field) {
        return Ok(());
    }
    text.put(":")?;
    text.descriptor(&field.kind)
}

// The field of that slot of an object of the exact type.
fn field_of_type<'a>(world: &'a World, slot: u32, kind: &ExactType) -> Option<&'a FieldSlot>
    ensures { option_copied result ≡ field_of_type world.now slot kind.now }
{
    match kind {
        ExactType::Class(name) => world.slots_named(name).get(slot as usize),
        ExactType::Array(_) => None,
    }
}

// The field of that slot of that object of the picture; nothing where there is none.
fn write_field_of(
    text: &mut Text,
    world: &NamedWorld<'_>,
    objects: &[PicObject],
    object: u32,
    slot: u32,
) -> Result<(), NoMemory>
    ensures { OnOk result (text.new ≡ text.old ++ option_map_or (field_text world.now) (field_of world.now objects.now object slot) []) }
{
    let Some(object) = objects.get(object as usize) else {
        return Ok(());
    };
    match field_of_type(world.world(), slot, &object.kind) {
        Some(field) => write_field(text, world, field),
        None => Ok(()),
    }
}

/// A slot of the first heap.
#[tactic(auto, unfolding(crate::specs::Slots::slot_text))]
pub(crate) fn write_slot(
    text: &mut Text,
    world: &NamedWorld<'_>,
    objects: &[PicObject],
    slot: Origin,
) -> Result<(), NoMemory>
    ensures { OnOk result (text.new ≡ text.old ++ slot_text world.now objects.now slot) }
{
    match slot {
        Origin::Arg(number) => write_numbered(text, "a", number),
        Origin::Field(object, slot) => {
            write_numbered(text, "o", object)?;
            text.put(".")?;
            write_field_of(text, world, objects, object, slot)
        }
        Origin::Element(array, index) => {
            write_numbered(text, "o", array)?;
            write_numbered(text, "[", index)?;
            text.put("]")
        }
    }
}
