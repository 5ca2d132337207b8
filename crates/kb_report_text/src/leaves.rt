//! The leaf of a path is written.
ghost use Rattle.std.specs.Prelude.{◌≡◌, ◌++◌, ◌∷◌, [], map, OnOk};
ghost use Rattle.kb_grammar.specs.Lines.{lines_text};
ghost use Rattle.kb_path_words.specs.Words.{out_text, value_text};
ghost use Rattle.kb_path_words.specs.Lines.{numbered_lines, spaced};
ghost use Rattle.kb_report_text.specs.Blocks.{set_line, new_line, arg_line, in_line, input_lines, further_lines, leaf_lines};

use crate::NoMemory;
use crate::naming::NamedWorld;
use crate::slots::write_slot;
use kb_heap::{Input, Object, Value};
use kb_path_words::{Text, write_leaf_line, write_out, write_value};
use kb_picture::{Ended, Leaf, Made, Out, PicObject, Write};

/// The lines of a leaf.
#[tactic(auto, using(kb_path_words::proofs::TextLaws::lines_joined), unfolding(crate::specs::Blocks::leaf_lines))]
pub(crate) fn write_leaf(
    text: &mut Text,
    world: &NamedWorld<'_>,
    objects: &[PicObject],
    leaf: &Leaf,
) -> Result<(), NoMemory>
    ensures { OnOk result (text.new ≡ text.old ++ lines_text (leaf_lines world.now objects.now leaf.now)) }
{
    write_leaf_line(text, leaf)?;
    text.end_line()?;
    write_further_lines(text, world, objects, leaf)
}

#[tactic(auto, unfolding(crate::specs::Blocks::further_lines))]
fn write_further_lines(
    text: &mut Text,
    world: &NamedWorld<'_>,
    objects: &[PicObject],
    leaf: &Leaf,
) -> Result<(), NoMemory>
    ensures { OnOk result (text.new ≡ text.old ++ lines_text (further_lines world.now objects.now leaf.now)) }
{
    match leaf {
        Leaf::Ended(ended) => write_ended(text, world, objects, ended),
        Leaf::Cut(_, input) => write_input(text, input),
        Leaf::Undecided(log) => text.log(log),
        Leaf::Open => Ok(()),
    }
}

// What an ended path wrote and made, and its input.
#[tactic(auto, using(kb_path_words::proofs::TextLaws::lines_joined))]
fn write_ended(
    text: &mut Text,
    world: &NamedWorld<'_>,
    objects: &[PicObject],
    ended: &Ended,
) -> Result<(), NoMemory>
    ensures { OnOk result (text.new ≡ text.old ++ lines_text (map (set_line world.now objects.now) ended.now.writes ++ (numbered_lines new_line 0 ended.now.made ++ input_lines ended.now.input))) }
{
    write_writes(text, world, objects, ended.writes.as_slice())?;
    write_made(text, ended.made.as_slice())?;
    write_input(text, &ended.input)
}

fn write_writes(
    text: &mut Text,
    world: &NamedWorld<'_>,
    objects: &[PicObject],
    writes: &[Write],
) -> Result<(), NoMemory>
    ensures { OnOk result (text.new ≡ text.old ++ lines_text (map (set_line world.now objects.now) writes.now)) }
{
    for write in writes {
        write_set_line(text, world, objects, write)?;
    }
    Ok(())
}

#[tactic(auto, unfolding(crate::specs::Blocks::set_line))]
fn write_set_line(
    text: &mut Text,
    world: &NamedWorld<'_>,
    objects: &[PicObject],
    write: &Write,
) -> Result<(), NoMemory>
    ensures { OnOk result (text.new ≡ text.old ++ (set_line world.now objects.now write.now ++ 10 ∷ [])) }
{
    text.put("set ")?;
    write_slot(text, world, objects, write.slot)?;
    text.put(" ")?;
    write_out(text, &write.value)?;
    text.end_line()
}

fn write_made(text: &mut Text, made: &[Made]) -> Result<(), NoMemory>
    ensures { OnOk result (text.new ≡ text.old ++ lines_text (numbered_lines new_line 0 made.now)) }
{
    for (number, object) in made.iter().enumerate() {
        write_new_line(text, number, object)?;
    }
    Ok(())
}

#[tactic(auto, unfolding(crate::specs::Blocks::new_line))]
fn write_new_line(text: &mut Text, number: usize, made: &Made) -> Result<(), NoMemory>
    ensures { OnOk result (text.new ≡ text.old ++ (new_line number made.now ++ 10 ∷ [])) }
{
    text.put("new n")?;
    text.count(number)?;
    text.put(" ")?;
    text.exact(&made.kind)?;
    write_outs(text, made.values.as_slice())?;
    text.end_line()
}

// Each with a space before it.
fn write_outs(text: &mut Text, outs: &[Out]) -> Result<(), NoMemory>
    ensures { OnOk result (text.new ≡ text.old ++ spaced out_text outs.now) }
{
    for out in outs {
        text.put(" ")?;
        write_out(text, out)?;
    }
    Ok(())
}

#[tactic(auto, using(kb_path_words::proofs::TextLaws::lines_joined), unfolding(crate::specs::Blocks::input_lines))]
fn write_input(text: &mut Text, input: &Input) -> Result<(), NoMemory>
    ensures { OnOk result (text.new ≡ text.old ++ lines_text (input_lines input.now)) }
{
    write_args(text, input.args.as_slice())?;
    write_input_objects(text, input.heap.objects.as_slice())
}

fn write_args(text: &mut Text, args: &[Value]) -> Result<(), NoMemory>
    ensures { OnOk result (text.new ≡ text.old ++ lines_text (map arg_line args.now)) }
{
    for value in args {
        write_arg_line(text, value)?;
    }
    Ok(())
}

#[tactic(auto, unfolding(crate::specs::Blocks::arg_line))]
fn write_arg_line(text: &mut Text, value: &Value) -> Result<(), NoMemory>
    ensures { OnOk result (text.new ≡ text.old ++ (arg_line value.now ++ 10 ∷ [])) }
{
    text.put("arg ")?;
    write_value(text, value)?;
    text.end_line()
}

fn write_input_objects(text: &mut Text, objects: &[Object]) -> Result<(), NoMemory>
    ensures { OnOk result (text.new ≡ text.old ++ lines_text (numbered_lines in_line 0 objects.now)) }
{
    for (number, object) in objects.iter().enumerate() {
        write_in_line(text, number, object)?;
    }
    Ok(())
}

#[tactic(auto, unfolding(crate::specs::Blocks::in_line))]
fn write_in_line(text: &mut Text, number: usize, object: &Object) -> Result<(), NoMemory>
    ensures { OnOk result (text.new ≡ text.old ++ (in_line number object.now ++ 10 ∷ [])) }
{
    text.put("in i")?;
    text.count(number)?;
    text.put(" ")?;
    text.exact(&object.kind)?;
    write_values(text, object.values.as_slice())?;
    text.end_line()
}

// Each with a space before it.
fn write_values(text: &mut Text, values: &[Value]) -> Result<(), NoMemory>
    ensures { OnOk result (text.new ≡ text.old ++ spaced value_text values.now) }
{
    for value in values {
        text.put(" ")?;
        write_value(text, value)?;
    }
    Ok(())
}
