//! The objects that a run made are written, each with its values.
ghost use Rattle.std.specs.Prelude.{◌≡◌, ◌++◌, ◌∷◌, [], OnOk};
ghost use Rattle.std.specs.Fmt.{decimal};
ghost use Rattle.kb_grammar.specs.Lines.{lines_text};
ghost use Rattle.kb_path_words.specs.Lines.{numbered_lines};
ghost use Rattle.kb_path_words.specs.Words.{out_text};
ghost use Rattle.kb_diagram.specs.Diagram.{numbered_words, cell_front, cell_word, field_name, made_cells, made_line};

use crate::NoMemory;
use crate::fronts::{begin_element, begin_field};
use kb_names::ExactType;
use kb_path_words::{Text, write_out};
use kb_picture::{Made, Out};
use kb_semantics::{FieldSlot, World};

pub(crate) fn write_made(text: &mut Text, world: &World, made: &[Made]) -> Result<(), NoMemory>
    ensures { OnOk result (text.new ≡ text.old ++ lines_text (numbered_lines (made_line world.now) 0 made.now)) }
{
    for (number, object) in made.iter().enumerate() {
        write_made_line(text, world, number, object)?;
    }
    Ok(())
}

#[tactic(auto, unfolding(crate::specs::Diagram::made_line))]
fn write_made_line(
    text: &mut Text,
    world: &World,
    number: usize,
    made: &Made,
) -> Result<(), NoMemory>
    ensures { OnOk result (text.new ≡ text.old ++ (made_line world.now number made.now ++ 10 ∷ [])) }
{
    text.put("n")?;
    text.count(number)?;
    text.put(" ")?;
    text.exact(&made.kind)?;
    write_values(text, world, made)?;
    text.end_line()
}

fn write_values(text: &mut Text, world: &World, made: &Made) -> Result<(), NoMemory>
    ensures { OnOk result (text.new ≡ text.old ++ made_cells world.now made.now.kind made.now.values) }
{
    let values = made.values.as_slice();
    match &made.kind {
        ExactType::Class(name) => write_field_values(text, world.slots_named(name), values),
        ExactType::Array(_) => write_element_values(text, values),
    }
}

fn write_field_values(text: &mut Text, fields: &[FieldSlot], values: &[Out]) -> Result<(), NoMemory>
    ensures { OnOk result (text.new ≡ text.old ++ numbered_words (λ slot out. cell_word (field_name fields.now slot) (out_text out)) 0 values.now) }
{
    for (slot, value) in values.iter().enumerate() {
        write_field_value(text, fields, slot, value)?;
    }
    Ok(())
}

#[tactic(auto, unfolding(crate::specs::Diagram::cell_word))]
fn write_field_value(
    text: &mut Text,
    fields: &[FieldSlot],
    slot: usize,
    value: &Out,
) -> Result<(), NoMemory>
    ensures { OnOk result (text.new ≡ text.old ++ cell_word (field_name fields.now slot) (out_text value.now)) }
{
    begin_slot(text, fields, slot)?;
    write_out(text, value)
}

// Where there is no field of that slot, it has no name.
fn begin_slot(text: &mut Text, fields: &[FieldSlot], slot: usize) -> Result<(), NoMemory>
    ensures { OnOk result (text.new ≡ text.old ++ cell_front (field_name fields.now slot)) }
{
    match fields.get(slot) {
        Some(field) => begin_field(text, field),
        None => text.put(" ="),
    }
}

fn write_element_values(text: &mut Text, values: &[Out]) -> Result<(), NoMemory>
    ensures { OnOk result (text.new ≡ text.old ++ numbered_words (λ index out. cell_word (decimal index) (out_text out)) 0 values.now) }
{
    for (index, value) in values.iter().enumerate() {
        write_element_value(text, index, value)?;
    }
    Ok(())
}

#[tactic(auto, unfolding(crate::specs::Diagram::cell_word))]
fn write_element_value(text: &mut Text, index: usize, value: &Out) -> Result<(), NoMemory>
    ensures { OnOk result (text.new ≡ text.old ++ cell_word (decimal index) (out_text value.now)) }
{
    begin_element(text, index)?;
    write_out(text, value)
}
