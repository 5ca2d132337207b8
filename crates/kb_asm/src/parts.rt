//! Lists of parts.

ghost use Rattle.std.specs.Prelude.{◌≡◌, ◌++◌, [], OnOk};
ghost use Rattle.std.specs.List.{cons_option};

use crate::NoMemory;
use kb_rows::Row;

/// Adds a part behind the others, if there is one.
pub(crate) fn push_part<T: Drop>(row: &mut Row<T>, part: Option<T>) -> Result<(), NoMemory>
    ensures { OnOk result (row.new ≡ row.old ++ cons_option part []) }
{
    match part {
        Some(part) => row.push(part),
        None => Ok(()),
    }
}
