//! The objects of a picture are written, each with what a table has for its slots.
ghost use Rattle.std.specs.Prelude.{◌≡◌, ◌++◌, ◌∷◌, [], OnOk};
ghost use Rattle.kb_grammar.specs.Lines.{lines_text};
ghost use Rattle.kb_path_words.specs.Lines.{numbered_lines};
ghost use Rattle.kb_diagram.specs.Diagram.{numbered_words, cell_word, field_cell, element_cells, array_cells, object_cells, object_line};
ghost use Rattle.kb_diagram.specs.Tables.{held_in};
ghost use Rattle.kb_names.specs.Escapes.{name_text};
ghost use Rattle.std.specs.Fmt.{decimal};

use crate::NoMemory;
use crate::cells::{Cell, Slot, write_held};
use crate::fronts::{begin_element, begin_field};
use kb_names::ExactType;
use kb_path_words::Text;
use kb_picture::{Length, PicObject};
use kb_semantics::{FieldSlot, World};
use std::collections::HashMap;

pub(crate) fn write_objects(
    text: &mut Text,
    world: &World,
    cells: &HashMap<Slot, Cell>,
    objects: &[PicObject],
) -> Result<(), NoMemory>
    ensures { OnOk result (text.new ≡ text.old ++ lines_text (numbered_lines (object_line world.now (held_in cells.now)) 0 objects.now)) }
{
    for (number, object) in objects.iter().enumerate() {
        write_object_line(text, world, cells, number, object)?;
    }
    Ok(())
}

#[tactic(auto, unfolding(crate::specs::Diagram::object_line))]
fn write_object_line(
    text: &mut Text,
    world: &World,
    cells: &HashMap<Slot, Cell>,
    number: usize,
    object: &PicObject,
) -> Result<(), NoMemory>
    ensures { OnOk result (text.new ≡ text.old ++ (object_line world.now (held_in cells.now) number object.now ++ 10 ∷ [])) }
{
    text.put("o")?;
    text.count(number)?;
    text.put(" ")?;
    text.exact(&object.kind)?;
    write_cells(text, world, cells, number, object)?;
    text.end_line()
}

// What the slots of the object hold.
fn write_cells(
    text: &mut Text,
    world: &World,
    cells: &HashMap<Slot, Cell>,
    number: usize,
    object: &PicObject,
) -> Result<(), NoMemory>
    ensures { OnOk result (text.new ≡ text.old ++ object_cells world.now (held_in cells.now number) object.now.kind object.now.length) }
{
    match &object.kind {
        ExactType::Class(name) => write_fields(text, world.slots_named(name), cells, number),
        ExactType::Array(_) => write_array(text, object.length, cells, number),
    }
}

fn write_fields(
    text: &mut Text,
    fields: &[FieldSlot],
    cells: &HashMap<Slot, Cell>,
    object: usize,
) -> Result<(), NoMemory>
    ensures { OnOk result (text.new ≡ text.old ++ numbered_words (field_cell (held_in cells.now object)) 0 fields.now) }
{
    for (slot, field) in fields.iter().enumerate() {
        write_field(text, field, cells, object, slot)?;
    }
    Ok(())
}

#[tactic(auto, unfolding(crate::specs::Diagram::cell_word))]
fn write_field(
    text: &mut Text,
    field: &FieldSlot,
    cells: &HashMap<Slot, Cell>,
    object: usize,
    slot: usize,
) -> Result<(), NoMemory>
    ensures { OnOk result (text.new ≡ text.old ++ cell_word (name_text field.now.name) (held_in cells.now object slot)) }
{
    begin_field(text, field)?;
    write_held(text, cells, object, slot)
}

fn write_array(
    text: &mut Text,
    length: Length,
    cells: &HashMap<Slot, Cell>,
    array: usize,
) -> Result<(), NoMemory>
    ensures { OnOk result (text.new ≡ text.old ++ array_cells (held_in cells.now array) length) }
{
    match length {
        Length::Is(count) => write_elements(text, count as usize, cells, array),
        Length::Plain | Length::Above(_) => Ok(()),
    }
}

fn write_elements(
    text: &mut Text,
    count: usize,
    cells: &HashMap<Slot, Cell>,
    array: usize,
) -> Result<(), NoMemory>
    ensures { OnOk result (text.new ≡ text.old ++ element_cells (held_in cells.now array) count) }
{
    for index in 0..count {
        write_element(text, cells, array, index)?;
    }
    Ok(())
}

#[tactic(auto, unfolding(crate::specs::Diagram::cell_word))]
fn write_element(
    text: &mut Text,
    cells: &HashMap<Slot, Cell>,
    array: usize,
    index: usize,
) -> Result<(), NoMemory>
    ensures { OnOk result (text.new ≡ text.old ++ cell_word (decimal index) (held_in cells.now array index)) }
{
    begin_element(text, index)?;
    write_held(text, cells, array, index)
}
