//! The text of diagrams.
ghost use Rattle.std.specs.Prelude.{◌≡◌, ◌++◌, ◌∷◌, [], OnOk, IfOk};
ghost use Rattle.kb_diagram.specs.Diagram.{title_line, diagram_text, diagrams_text};

use crate::NoMemory;
use crate::heaps::write_heaps;
use kb_path_words::{Text, write_decisions, write_leaf_line};
use kb_picture::Path;
use kb_semantics::World;
use std::alloc::Global;

/// The text of the diagram of a path of the world: the objects of its picture before the run and, where the path has ended, after
/// it, with the objects that the run made. Refused only where memory runs out. What the path names need not be there.
///
/// It takes time in proportion to the path and the text.
pub fn diagram_text(alloc: Global, world: &World, path: &Path) -> Result<Vec<u8>, NoMemory>
    ensures { IfOk result (λ text. text.items ≡ diagram_text world.now path.now) }
{
    let mut text = Text::new(alloc);
    write_diagram(&mut text, alloc, world, path)?;
    Ok(text.into_bytes())
}

/// The text of the diagrams of these paths, one behind the other.
pub fn diagrams_text(alloc: Global, world: &World, paths: &[Path]) -> Result<Vec<u8>, NoMemory>
    ensures { IfOk result (λ text. text.items ≡ diagrams_text world.now paths.now) }
{
    let mut text = Text::new(alloc);
    write_diagrams(&mut text, alloc, world, paths)?;
    Ok(text.into_bytes())
}

#[tactic(auto, unfolding(crate::specs::Diagram::diagrams_text))]
fn write_diagrams(
    text: &mut Text,
    alloc: Global,
    world: &World,
    paths: &[Path],
) -> Result<(), NoMemory>
    ensures { OnOk result (text.new ≡ text.old ++ diagrams_text world.now paths.now) }
{
    for path in paths {
        write_diagram(text, alloc, world, path)?;
    }
    Ok(())
}

#[tactic(auto, using(kb_path_words::proofs::TextLaws::lines_joined), unfolding(crate::specs::Diagram::diagram_text, crate::specs::Diagram::diagram_lines))]
fn write_diagram(text: &mut Text, alloc: Global, world: &World, path: &Path) -> Result<(), NoMemory>
    ensures { OnOk result (text.new ≡ text.old ++ diagram_text world.now path.now) }
{
    write_title(text, path.decisions.as_slice())?;
    write_heaps(text, alloc, world, path)?;
    write_leaf_line(text, &path.leaf)?;
    text.end_line()
}

#[tactic(auto, unfolding(crate::specs::Diagram::title_line))]
fn write_title(text: &mut Text, decisions: &[u32]) -> Result<(), NoMemory>
    ensures { OnOk result (text.new ≡ text.old ++ (title_line decisions.now ++ 10 ∷ [])) }
{
    text.put("diagram ")?;
    write_decisions(text, decisions)?;
    text.end_line()
}
