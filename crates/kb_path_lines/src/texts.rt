//! Texts, taken apart and put together.

use kb_rows::Row;
use kb_table::RowResult;

/// The first word of a text, and what stands behind it.
pub fn split(text: &str) -> (&str, &str) {
    match text.split_once(' ') {
        Some(parts) => parts,
        None => (text, ""),
    }
}

/// Pushes an item, if it could be made.
pub fn push<T: Drop>(item: RowResult<T>, items: &mut Row<T>) -> RowResult<()> {
    let item = item?;
    items.push(item)?;
    Ok(())
}
