//! The classes of the universe, by their numbers.
ghost use Rattle.std.specs.Prelude.{◌≡◌, filter_map, IfOk};
ghost use Rattle.kb_resolution.specs.Lookup.{class_number};

use crate::special::class_number;
use kb_link::Linked;
use kb_names::{ExactType, NoMemory, Row};
use std::alloc::Global;

/// The numbers of those of these types that are classes.
pub fn receivers_of(
    alloc: Global,
    linked: &Linked,
    types: &[ExactType],
) -> Result<Row<u32>, NoMemory>
    ensures { IfOk result (λ row. row ≡ filter_map (class_number linked.now) types.now) }
{
    let mut row = Row::new(alloc);
    let mut rest = types;
    while let [of, others @ ..] = rest {
        if let Some(number) = class_number(linked, of) {
            row.push(number)?;
        }
        rest = others;
    }
    Ok(row)
}
