//! The fronts of cells are written: a field by its name, an element by its index.
ghost use Rattle.std.specs.Prelude.{◌≡◌, ◌++◌, OnOk};
ghost use Rattle.std.specs.Fmt.{decimal};
ghost use Rattle.kb_diagram.specs.Diagram.{cell_front};
ghost use Rattle.kb_names.specs.Escapes.{name_text};

use crate::NoMemory;
use kb_path_words::Text;
use kb_semantics::FieldSlot;

pub(crate) fn begin_field(text: &mut Text, field: &FieldSlot) -> Result<(), NoMemory>
    ensures { OnOk result (text.new ≡ text.old ++ cell_front (name_text field.now.name)) }
{
    text.put(" ")?;
    text.name(&field.name)?;
    text.put("=")
}

pub(crate) fn begin_element(text: &mut Text, index: usize) -> Result<(), NoMemory>
    ensures { OnOk result (text.new ≡ text.old ++ cell_front (decimal index)) }
{
    text.put(" ")?;
    text.count(index)?;
    text.put("=")
}
