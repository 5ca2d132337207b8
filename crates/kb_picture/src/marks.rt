//! Which objects of an input are places of objects of a picture.
ghost use Rattle.std.specs.Prelude.{◌≡◌, IfOk};
ghost use Rattle.kb_picture.specs.Tables.{is_marked, marked, marks_of};

use crate::NoMemory;
use kb_rows::Row;
use std::alloc::Global;

/// A table of so many objects with each of the places marked; None where two of them are one, or one is none of the objects.
pub(crate) fn marks_of(
    alloc: Global,
    objects: usize,
    places: &[u32],
) -> Result<Option<Row<bool>>, NoMemory>
    ensures { IfOk result (λ table. table ≡ marks_of objects places.now) }
{
    let table = Row::from_vec(vec![in alloc; false; objects]?);
    Ok(marked(table, places))
}

// The table with each of the places marked as well.
fn marked(table: Row<bool>, places: &[u32]) -> Option<Row<bool>>
    ensures { result ≡ marked table places.now }
{
    let mut table = table;
    let mut rest = places;
    while let [place, others @ ..] = rest {
        let place = *place as usize;
        let Some(false) = table.as_slice().get(place) else {
            return None;
        };
        table.set(place, true);
        rest = others;
    }
    Some(table)
}

/// Whether the object of that number is marked.
pub(crate) fn is_marked(table: &[bool], object: u32) -> bool
    ensures { result ≡ is_marked table.now object }
{
    match table.get(object as usize) {
        Some(marked) => *marked,
        None => false,
    }
}
