//! The decisions of a path, and the first line of its leaf.
ghost use Rattle.std.specs.Prelude.{◌≡◌, ◌++◌, OnOk};
ghost use Rattle.kb_path_words.specs.Lines.{decisions_text, further_decisions, ending_line, leaf_line};

use crate::NoMemory;
use crate::text::Text;
use crate::words::write_out;
use kb_heap_words::bound_name;
use kb_picture::{Leaf, SymEnding};

/// The decisions, joined by dots.
#[tactic(auto, unfolding(crate::specs::Lines::decisions_text))]
pub fn write_decisions(text: &mut Text, decisions: &[u32]) -> Result<(), NoMemory>
    ensures { OnOk result (text.new ≡ text.old ++ decisions_text decisions.now) }
{
    match decisions {
        [] => text.put("-"),
        [first, others @ ..] => {
            text.number(*first)?;
            write_further(text, others)
        }
    }
}

#[tactic(auto, unfolding(crate::specs::Lines::further_decisions))]
fn write_further(text: &mut Text, decisions: &[u32]) -> Result<(), NoMemory>
    ensures { OnOk result (text.new ≡ text.old ++ further_decisions decisions.now) }
{
    for decision in decisions {
        text.put(".")?;
        text.number(*decision)?;
    }
    Ok(())
}

/// The first line of a leaf.
#[tactic(auto, unfolding(crate::specs::Lines::leaf_line))]
pub fn write_leaf_line(text: &mut Text, leaf: &Leaf) -> Result<(), NoMemory>
    ensures { OnOk result (text.new ≡ text.old ++ leaf_line leaf.now) }
{
    match leaf {
        Leaf::Ended(ended) => write_ending(text, &ended.ending),
        Leaf::Cut(bound, _) => {
            text.put("cut ")?;
            text.put(bound_name(*bound))
        }
        Leaf::Undecided(log) => {
            text.put("undecided ")?;
            text.count(log.entries.as_slice().len())
        }
        Leaf::Open => text.put("open"),
    }
}

#[tactic(auto, unfolding(crate::specs::Lines::ending_line))]
fn write_ending(text: &mut Text, ending: &SymEnding) -> Result<(), NoMemory>
    ensures { OnOk result (text.new ≡ text.old ++ ending_line ending.now) }
{
    match ending {
        SymEnding::Returned(None) => text.put("returns"),
        SymEnding::Returned(Some(value)) => {
            text.put("returns ")?;
            write_out(text, value)
        }
        SymEnding::Threw(value) => {
            text.put("throws ")?;
            write_out(text, value)
        }
        SymEnding::IllTyped(place) => {
            text.put("illtyped ")?;
            text.place(place)
        }
    }
}
