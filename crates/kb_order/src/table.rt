//! Tables of marks: the transitive closure of a relation (Warshall, 1962).

ghost use Rattle.std.specs.Prelude.{◌≡◌, ◌<◌, ◌||◌, ℕ, IfOk, OnOk, true, false, [], length, slice_index_or};
ghost use Rattle.kb_order.specs.Order.{stands, IsComplete};
ghost use Rattle.kb_order.specs.Table.{mark_at, joined_row, IsSquare, IsTable, IsJoinedThrough};

use crate::NoMemory;
use kb_rows::Row;
use std::alloc::Global;

/// The table of what stands strictly above what.
pub(crate) fn table_of(alloc: Global, direct: &[Row<u32>]) -> Result<Vec<Row<bool>>, NoMemory>
    requires { IsComplete direct.now }
    ensures { IfOk result (λ table. IsTable direct.now table.items) }
{
    let mut table = direct_table(alloc, direct)?;
    for middle in 0..direct.len() {
        join_through(&mut table, middle)?;
    }
    Ok(table)
}

/// The table of what stands directly above what.
fn direct_table(alloc: Global, direct: &[Row<u32>]) -> Result<Vec<Row<bool>>, NoMemory>
    requires { IsComplete direct.now }
    ensures square { IfOk result (λ table. IsSquare (length direct.now) table.items) }
    ensures marks { IfOk result (λ table. (low high : ℕ) → mark_at table.items low high ≡ stands high (slice_index_or direct.now low [])) }
{
    let mut table = Vec::new(alloc);
    for highs in direct {
        table.push(direct_row(alloc, highs.as_slice(), direct.len())?)?;
    }
    Ok(table)
}

/// So many marks, set at these numbers.
fn direct_row(alloc: Global, highs: &[u32], size: usize) -> Result<Row<bool>, NoMemory>
    requires { (high : ℕ) → stands high highs.now ≡ true → high < size }
    ensures all { IfOk result (λ row. length row ≡ size) }
    ensures marks { IfOk result (λ row. (high : ℕ) → slice_index_or row high false ≡ stands high highs.now) }
{
    let mut row = Row::from_vec(vec![in alloc; false; size]?);
    for high in highs {
        row.set(*high as usize, true);
    }
    Ok(row)
}

/// Joins each row that marks `middle` with the row of `middle`.
fn join_through(table: &mut Vec<Row<bool>>, middle: usize) -> Result<(), NoMemory>
    requires square { IsSquare (length table.old.items) table.old.items }
    requires inside { middle < length table.old.items }
    ensures square { OnOk result (IsSquare (length table.old.items) table.new.items) }
    ensures joined { OnOk result (IsJoinedThrough middle table.old.items table.new.items) }
{
    let through = table[middle].clone()?;
    for low in 0..table.len() {
        let row = &mut table[low];
        join_where(row, middle, through.as_slice());
    }
    Ok(())
}

/// Joins the row with another, if it marks `middle`.
fn join_where(row: &mut Row<bool>, middle: usize, through: &[bool])
    requires { length through.now ≡ length row.old }
    ensures all { length row.new ≡ length row.old }
    ensures marks { (high : ℕ) → slice_index_or row.new high false ≡ joined_row row.old middle through.now high }
{
    if is_marked(row.as_slice(), middle) {
        join(row, through);
    }
}

/// Sets the marks that are set in another row.
fn join(row: &mut Row<bool>, through: &[bool])
    requires { length through.now ≡ length row.old }
    ensures all { length row.new ≡ length row.old }
    ensures marks { (high : ℕ) → slice_index_or row.new high false ≡ (slice_index_or row.old high false || slice_index_or through.now high false) }
{
    for high in 0..through.len() {
        if through[high] {
            row.set(high, true);
        }
    }
}

/// The mark at that place; none outside.
pub(crate) fn is_marked(marks: &[bool], place: usize) -> bool
    ensures { result ≡ slice_index_or marks.now place false }
{
    marks.get(place).copied().unwrap_or(false)
}
