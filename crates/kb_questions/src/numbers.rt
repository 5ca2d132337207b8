//! Numbers of questions.
ghost use Rattle.std.specs.Prelude.{◌<◌, IfOk};

use kb_table::{RowResult, RowStop, read_number};

/// A budget, which is at least 1.
pub fn read_budget(word: &str) -> RowResult<u32>
    ensures { IfOk result (λ budget. 0 < budget) }
{
    let budget = read_number(word)?;
    if budget == 0 {
        return Err(RowStop::Malformed);
    }
    Ok(budget)
}
