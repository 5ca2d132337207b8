//! The files that a program of rows reads.
ghost use Rattle.std.specs.Prelude.{◌≡◌, ℕ, List, map, IfOk, string_bytes};
ghost use Rattle.kb_table.specs.Files.{AreWhole, IsWhole};

use crate::faults::{RowResult, RowStop};
use kb_outside::{Shelf, ShelfStop};
use std::alloc::Global;

/// The most bytes that a file may have: twice those of the longest class file.
const ROOM: usize = 2_097_152;

/// The bytes of the file of that name, whole. A file of more than 2,097,152 bytes is refused.
pub fn read_file<S: Shelf>(alloc: Global, name: &str, shelf: &mut S) -> RowResult<Vec<u8>>
    ensures read { IfOk result (λ read. IsWhole (S.holds shelf.old name.now) read.items) }
    ensures holds { (other : List ℕ) → S.holds shelf.new other ≡ S.holds shelf.old other }
{
    let mut bytes = Vec::new(alloc);
    match shelf.read(name, ROOM, &mut bytes) {
        Ok(()) => {}
        Err(ShelfStop::Failed) => return Err(RowStop::NoFile),
        Err(ShelfStop::NoMemory) => return Err(RowStop::NoMemory),
    }
    if bytes.len() > ROOM {
        return Err(RowStop::TooLong);
    }
    Ok(bytes)
}

/// The bytes of the files of these names, each whole, in order.
pub fn read_files<S: Shelf>(
    alloc: Global,
    names: &[String],
    shelf: &mut S,
) -> RowResult<Vec<Vec<u8>>>
    ensures read { IfOk result (λ files. AreWhole (S.holds shelf.old) (map string_bytes names.now) (map (λ file. file.items) files.items)) }
    ensures holds { (other : List ℕ) → S.holds shelf.new other ≡ S.holds shelf.old other }
{
    let mut files = Vec::new(alloc);
    for name in names {
        let bytes = read_file(alloc, name.as_str(), shelf)?;
        files.push(bytes)?;
    }
    Ok(files)
}

/// The text of the table of that name, whole.
pub fn read_table<S: Shelf>(alloc: Global, name: &str, shelf: &mut S) -> RowResult<String>
    ensures { IfOk result (λ read. IsWhole (S.holds shelf.old name.now) (string_bytes read)) }
{
    match String::from_utf8(read_file(alloc, name, shelf)?) {
        Ok(text) => Ok(text),
        Err(_) => Err(RowStop::Malformed),
    }
}
