//! The block of a path is written, but for its leaf.
ghost use Rattle.std.specs.Prelude.{◌≡◌, ◌++◌, ◌∷◌, [], map, OnOk};
ghost use Rattle.kb_grammar.specs.Lines.{lines_text};
ghost use Rattle.kb_path_words.specs.Lines.{numbered_lines};
ghost use Rattle.kb_report_text.specs.Blocks.{path_line, see_line, loc_line, obj_line, picture_lines, let_line, when_line, path_lines};

use crate::NoMemory;
use crate::leaves::write_leaf;
use crate::naming::NamedWorld;
use crate::slots::write_slot;
use kb_path_words::{Text, write_decisions, write_length, write_seen, write_standing, write_term};
use kb_picture::{Origin, Path, PicLoc, PicObject, Picture, Seen, Term};

/// The block of a path.
#[tactic(auto, using(kb_path_words::proofs::TextLaws::lines_joined), unfolding(crate::specs::Blocks::path_lines))]
pub(crate) fn write_path(
    text: &mut Text,
    world: &NamedWorld<'_>,
    path: &Path,
) -> Result<(), NoMemory>
    ensures { OnOk result (text.new ≡ text.old ++ lines_text (path_lines world.now path.now)) }
{
    write_path_line(text, path.decisions.as_slice())?;
    write_picture(text, world, &path.picture)?;
    write_terms(text, path.terms.as_slice())?;
    write_conditions(text, path.when.as_slice())?;
    write_leaf(text, world, path.picture.objects.as_slice(), &path.leaf)
}

#[tactic(auto, unfolding(crate::specs::Blocks::path_line))]
fn write_path_line(text: &mut Text, decisions: &[u32]) -> Result<(), NoMemory>
    ensures { OnOk result (text.new ≡ text.old ++ (path_line decisions.now ++ 10 ∷ [])) }
{
    text.put("path ")?;
    write_decisions(text, decisions)?;
    text.end_line()
}

#[tactic(auto, using(kb_path_words::proofs::TextLaws::lines_joined), unfolding(crate::specs::Blocks::picture_lines))]
fn write_picture(text: &mut Text, world: &NamedWorld<'_>, picture: &Picture) -> Result<(), NoMemory>
    ensures { OnOk result (text.new ≡ text.old ++ lines_text (picture_lines world.now picture.now)) }
{
    let objects = picture.objects.as_slice();
    write_slots(text, world, objects, picture.seen.as_slice())?;
    write_locs(text, picture.locs.as_slice())?;
    write_objects(text, world, objects)
}

fn write_slots(
    text: &mut Text,
    world: &NamedWorld<'_>,
    objects: &[PicObject],
    seen: &[(Origin, Seen)],
) -> Result<(), NoMemory>
    ensures { OnOk result (text.new ≡ text.old ++ lines_text (map (see_line world.now objects.now) seen.now)) }
{
    for (slot, held) in seen {
        write_see_line(text, world, objects, *slot, *held)?;
    }
    Ok(())
}

#[tactic(auto, unfolding(crate::specs::Blocks::see_line))]
fn write_see_line(
    text: &mut Text,
    world: &NamedWorld<'_>,
    objects: &[PicObject],
    slot: Origin,
    held: Seen,
) -> Result<(), NoMemory>
    ensures { OnOk result (text.new ≡ text.old ++ (see_line world.now objects.now (slot, held) ++ 10 ∷ [])) }
{
    text.put("see ")?;
    write_slot(text, world, objects, slot)?;
    text.put(" ")?;
    write_seen(text, held)?;
    text.end_line()
}

fn write_locs(text: &mut Text, locs: &[PicLoc]) -> Result<(), NoMemory>
    ensures { OnOk result (text.new ≡ text.old ++ lines_text (numbered_lines loc_line 0 locs.now)) }
{
    for (number, loc) in locs.iter().enumerate() {
        write_loc_line(text, number, loc)?;
    }
    Ok(())
}

#[tactic(auto, unfolding(crate::specs::Blocks::loc_line))]
fn write_loc_line(text: &mut Text, number: usize, loc: &PicLoc) -> Result<(), NoMemory>
    ensures { OnOk result (text.new ≡ text.old ++ (loc_line number loc.now ++ 10 ∷ [])) }
{
    text.put("loc l")?;
    text.count(number)?;
    text.put(" ")?;
    write_standing(text, loc.standing)?;
    text.end_line()
}

fn write_objects(
    text: &mut Text,
    world: &NamedWorld<'_>,
    objects: &[PicObject],
) -> Result<(), NoMemory>
    ensures { OnOk result (text.new ≡ text.old ++ lines_text (numbered_lines (obj_line world.now objects.now) 0 objects.now)) }
{
    for (number, object) in objects.iter().enumerate() {
        write_obj_line(text, world, objects, number, object)?;
    }
    Ok(())
}

#[tactic(auto, unfolding(crate::specs::Blocks::obj_line))]
fn write_obj_line(
    text: &mut Text,
    world: &NamedWorld<'_>,
    objects: &[PicObject],
    number: usize,
    object: &PicObject,
) -> Result<(), NoMemory>
    ensures { OnOk result (text.new ≡ text.old ++ (obj_line world.now objects.now number object.now ++ 10 ∷ [])) }
{
    text.put("obj o")?;
    text.count(number)?;
    text.put(" ")?;
    text.exact(&object.kind)?;
    write_length(text, object.length)?;
    text.put(" ")?;
    write_slot(text, world, objects, object.origin)?;
    text.end_line()
}

fn write_terms(text: &mut Text, terms: &[Term]) -> Result<(), NoMemory>
    ensures { OnOk result (text.new ≡ text.old ++ lines_text (numbered_lines let_line 0 terms.now)) }
{
    for (number, term) in terms.iter().enumerate() {
        write_let_line(text, number, term)?;
    }
    Ok(())
}

#[tactic(auto, unfolding(crate::specs::Blocks::let_line))]
fn write_let_line(text: &mut Text, number: usize, term: &Term) -> Result<(), NoMemory>
    ensures { OnOk result (text.new ≡ text.old ++ (let_line number term.now ++ 10 ∷ [])) }
{
    text.put("let t")?;
    text.count(number)?;
    text.put(" ")?;
    write_term(text, term)?;
    text.end_line()
}

fn write_conditions(text: &mut Text, when: &[(u32, bool)]) -> Result<(), NoMemory>
    ensures { OnOk result (text.new ≡ text.old ++ lines_text (map when_line when.now)) }
{
    for condition in when {
        write_when_line(text, *condition)?;
    }
    Ok(())
}

#[tactic(auto, unfolding(crate::specs::Blocks::when_line))]
fn write_when_line(text: &mut Text, condition: (u32, bool)) -> Result<(), NoMemory>
    ensures { OnOk result (text.new ≡ text.old ++ (when_line condition ++ 10 ∷ [])) }
{
    let (term, truth) = condition;
    text.put(if truth { "when t" } else { "when not t" })?;
    text.number(term)?;
    text.end_line()
}
