//! The inputs that paths carry.

ghost use Rattle.std.specs.Prelude.{◌≡◌, Some};
ghost use Rattle.kb_picture.specs.Places.{places_of};
ghost use Rattle.kb_world.specs.Reach.{IsAccepted};

use crate::rows::TableRow;
use kb_class::MethodId;
use kb_fits::fits_types;
use kb_heap::{Bound, Ending, Heap, Input};
use kb_machine::run;
use kb_picture::{Leaf, Path, PlaceLists, ending_at, is_instance, places};
use kb_report_text::Report;
use kb_table::{RowResult, RowStop};
use kb_world::World;
use std::alloc::Global;

/// Appends a line that says for each path whether the input that it carries is as it says: an input of the method, an instance
/// of the path, and one whose run ends with the ending and the heap that the path states, or goes beyond the bound by which it
/// is cut. What a path that is cut by k or array says is how deep or long the objects of its instances are.
pub fn append_inputs(
    alloc: Global,
    world: &World,
    method: MethodId,
    row: &TableRow,
    report: &Report,
    into: &mut Vec<u8>,
) -> RowResult<()>
    requires { IsAccepted world.now method }
{
    let mut front: &[u8] = b"inputs: ";
    for path in report.leaves.as_slice() {
        into.extend_from_slice(front)?;
        into.extend_from_slice(verdict(alloc, world, method, row, path)?.as_bytes())?;
        front = b", ";
    }
    into.push(b'\n')?;
    Ok(())
}

/// What is said of the input of a path.
fn verdict(
    alloc: Global,
    world: &World,
    method: MethodId,
    row: &TableRow,
    path: &Path,
) -> RowResult<&'static str>
    requires { IsAccepted world.now method }
{
    let input = match &path.leaf {
        Leaf::Ended(ended) => &ended.input,
        Leaf::Cut(_, input) => input,
        Leaf::Undecided(_) | Leaf::Open => return Ok("none"),
    };
    if !fits_types(world, method, input) {
        return Ok("of no such types");
    }
    match places(alloc, path, input) {
        Ok(Some(lists)) => judged(alloc, world, method, row, path, input, &lists),
        Ok(None) => Ok("without places"),
        Err(_) => Err(RowStop::NoMemory),
    }
}

/// What is said of the input of a path that has these places in it.
fn judged(
    alloc: Global,
    world: &World,
    method: MethodId,
    row: &TableRow,
    path: &Path,
    input: &Input,
    lists: &PlaceLists,
) -> RowResult<&'static str>
    requires accepted { IsAccepted world.now method }
    requires placed { places_of path.now.picture input.now ≡ Some lists.now }
{
    match is_instance(alloc, world, path, input, lists) {
        Ok(true) => {}
        Ok(false) => return Ok("no instance"),
        Err(_) => return Err(RowStop::NoMemory),
    }
    match run(alloc, world, method, input, &row.bounds.run) {
        Ok(end) => compared(alloc, world, path, input, lists, &end),
        Err(_) => Err(RowStop::NoMemory),
    }
}

/// What is said of an instance whose run ends so.
fn compared(
    alloc: Global,
    world: &World,
    path: &Path,
    input: &Input,
    lists: &PlaceLists,
    end: &(Ending, Heap),
) -> RowResult<&'static str>
    requires { places_of path.now.picture input.now ≡ Some lists.now }
{
    match &path.leaf {
        Leaf::Ended(_) => match ending_at(alloc, world, path, input, lists) {
            Ok(stated) => Ok(verdict_of(are_same(end, &stated))),
            Err(_) => Err(RowStop::NoMemory),
        },
        Leaf::Cut(Bound::K | Bound::Array, _) => Ok("an instance"),
        Leaf::Cut(bound, _) => Ok(verdict_of(end.0.is_same(&Ending::Past(*bound)))),
        Leaf::Undecided(_) | Leaf::Open => Ok("none"),
    }
}

fn verdict_of(is_stated: bool) -> &'static str {
    if is_stated {
        "as stated"
    } else {
        "not as stated"
    }
}

fn are_same(one: &(Ending, Heap), other: &(Ending, Heap)) -> bool {
    if !one.0.is_same(&other.0) {
        return false;
    }
    one.1.is_same(&other.1)
}
