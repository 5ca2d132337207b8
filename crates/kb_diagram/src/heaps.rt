//! The heap before the run of a path is written and, where it has ended, the heap after it.
ghost use Rattle.std.specs.Prelude.{◌≡◌, ◌++◌, OnOk};
ghost use Rattle.std.specs.HashMap.{IsEmpty};
ghost use Rattle.kb_grammar.specs.Lines.{lines_text};
ghost use Rattle.kb_diagram.specs.Diagram.{before_lines, after_lines, end_lines, heap_lines};
ghost use Rattle.kb_diagram.specs.Tables.{HasSeen};

use crate::NoMemory;
use crate::cells::{Cell, Slot, put_seen, put_writes};
use crate::made::write_made;
use crate::objects::write_objects;
use kb_path_words::Text;
use kb_picture::{Ended, Leaf, Path, Picture};
use kb_semantics::World;
use std::alloc::Global;
use std::collections::HashMap;

/// The heap before the run and, where the path has ended, after it.
#[tactic(auto, using(kb_path_words::proofs::TextLaws::lines_joined), unfolding(crate::specs::Diagram::heap_lines))]
pub(crate) fn write_heaps(
    text: &mut Text,
    alloc: Global,
    world: &World,
    path: &Path,
) -> Result<(), NoMemory>
    ensures { OnOk result (text.new ≡ text.old ++ lines_text (heap_lines world.now path.now)) }
{
    let mut cells = HashMap::new(alloc);
    write_before(text, world, &path.picture, &mut cells)?;
    write_end(text, world, &path.picture, &path.leaf, &mut cells)
}

// What is seen, from an empty table on, which has it all then.
#[tactic(auto, unfolding(crate::specs::Diagram::before_lines))]
fn write_before(
    text: &mut Text,
    world: &World,
    picture: &Picture,
    cells: &mut HashMap<Slot, Cell>,
) -> Result<(), NoMemory>
    requires { IsEmpty cells.old }
    ensures text { OnOk result (text.new ≡ text.old ++ lines_text (before_lines world.now picture.now)) }
    ensures cells { OnOk result (HasSeen picture.now cells.new) }
{
    put_seen(cells, picture.locs.as_slice(), picture.seen.as_slice())?;
    text.put("before\n")?;
    write_objects(text, world, cells, picture.objects.as_slice())
}

// What a run has left whose end the path states, from a table on that has what is seen.
fn write_end(
    text: &mut Text,
    world: &World,
    picture: &Picture,
    leaf: &Leaf,
    cells: &mut HashMap<Slot, Cell>,
) -> Result<(), NoMemory>
    requires { HasSeen picture.now cells.old }
    ensures { OnOk result (text.new ≡ text.old ++ lines_text (end_lines world.now picture.now leaf.now)) }
{
    match leaf {
        Leaf::Ended(ended) => write_after(text, world, picture, ended, cells),
        Leaf::Cut(..) | Leaf::Undecided(_) | Leaf::Open => Ok(()),
    }
}

#[tactic(auto, using(kb_path_words::proofs::TextLaws::lines_joined), unfolding(crate::specs::Diagram::after_lines))]
fn write_after(
    text: &mut Text,
    world: &World,
    picture: &Picture,
    ended: &Ended,
    cells: &mut HashMap<Slot, Cell>,
) -> Result<(), NoMemory>
    requires { HasSeen picture.now cells.old }
    ensures { OnOk result (text.new ≡ text.old ++ lines_text (after_lines world.now picture.now ended.now)) }
{
    put_writes(cells, ended.writes.as_slice())?;
    text.put("after\n")?;
    write_objects(text, world, cells, picture.objects.as_slice())?;
    write_made(text, world, ended.made.as_slice())
}
