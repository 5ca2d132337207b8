//! Texts that grow.
ghost use Rattle.std.specs.Prelude.{◌≡◌, ◌++◌, OnOk};

use crate::faults::RowResult;
use std::alloc::Global;

/// Appends a piece.
pub fn append(piece: &str, into: &mut Vec<u8>) -> RowResult<()>
    ensures { OnOk result (into.new.items ≡ into.old.items ++ piece.now) }
{
    Ok(into.extend_from_slice(piece.as_bytes())?)
}

/// Appends a number behind a piece.
pub fn append_number(
    alloc: Global,
    before: &str,
    number: i64,
    into: &mut Vec<u8>,
) -> RowResult<()> {
    let piece = format!(in alloc; "{before}{number}")?;
    append(piece.as_str(), into)
}
