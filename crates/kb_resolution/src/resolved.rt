//! What entries of the constant pools stand for.
ghost use Rattle.std.specs.Prelude.{◌≡◌, [], slice_index_or};
ghost use Rattle.kb_resolution.specs.Tables.{nothing};

use kb_names::Row;

/// What an entry stands for, all by numbers: the class that declares the field which it names, the place of the field's slot
/// among those of that class, the method that it names, and the method that invokespecial of it calls; whether a part of the
/// type of the method that is sought is left out; and the class in which that method is sought, where that is no array.
#[derive(Clone, Copy)]
pub struct Resolved {
    pub declaring: Option<u32>,
    pub slot: Option<u32>,
    pub method: Option<u32>,
    pub special: Option<u32>,
    pub left_out: bool,
    pub owner: Option<u32>,
}

/// Nothing is told of an entry that names no member.
pub(crate) fn nothing() -> Resolved
    ensures { result ≡ nothing }
{
    Resolved {
        declaring: None,
        slot: None,
        method: None,
        special: None,
        left_out: false,
        owner: None,
    }
}

/// What the rows have for an entry of a class; nothing behind their ends.
pub fn resolved_at(rows: &[Row<Resolved>], class: u32, entry: u16) -> Resolved
    ensures { result ≡ slice_index_or (slice_index_or rows.now class []) entry nothing }
{
    match rows.get(class as usize) {
        Some(row) => told_at(row.as_slice(), entry),
        None => nothing(),
    }
}

fn told_at(row: &[Resolved], entry: u16) -> Resolved
    ensures { result ≡ slice_index_or row.now entry nothing }
{
    match row.get(entry as usize) {
        Some(told) => *told,
        None => nothing(),
    }
}
