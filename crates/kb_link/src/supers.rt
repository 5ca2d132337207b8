//! Which classes and interfaces each class is a subtype of.
ghost use Rattle.std.specs.Prelude.{◌≡◌, ◌↔◌, ◌<◌, ℕ, true, false, length, slice_index_or, IfOk};
ghost use Rattle.kb_order.specs.Order.{IsAbove, IsComplete};
ghost use Rattle.kb_classes.specs.Subtypes.{direct_supers, is_super, AreSupers};

use kb_classes::Classes;
use kb_names::{NoMemory, Row};
use kb_order::Order;
use std::alloc::Global;

/// For each class a mark for each: whether it is that class, or a subtype of it.
pub(crate) fn supers_of(
    alloc: Global,
    classes: &Classes,
    order: &Order,
) -> Result<Vec<Row<bool>>, NoMemory>
    requires { order.now ≡ direct_supers classes.now }
    ensures { IfOk result (λ supers. AreSupers classes.now supers.items) }
{
    let mut supers = Vec::new(alloc);
    for low in 0..order.len() as u32 {
        let marks = marks_of(alloc, order, low)?;
        supers.push(marks)?;
    }
    Ok(supers)
}

// The marks of one class.
fn marks_of(alloc: Global, order: &Order, low: u32) -> Result<Row<bool>, NoMemory>
    requires { (low < length order.now) × IsComplete order.now }
    ensures all { IfOk result (λ marks. length marks ≡ length order.now) }
    ensures right { IfOk result (λ marks. (high : ℕ) → (slice_index_or marks high false ≡ true) ↔ IsAbove order.now low high) }
{
    let mut marks = Row::new(alloc);
    for high in 0..order.len() as u32 {
        marks.push(order.is_above(low, high))?;
    }
    Ok(marks)
}

/// The mark at two numbers; none outside.
pub(crate) fn is_super(supers: &[Row<bool>], low: u32, high: u32) -> bool
    ensures { result ≡ is_super supers.now low high }
{
    match supers.get(low as usize) {
        Some(marks) => is_marked(marks.as_slice(), high),
        None => false,
    }
}

fn is_marked(marks: &[bool], high: u32) -> bool
    ensures { result ≡ slice_index_or marks.now high false }
{
    match marks.get(high as usize) {
        Some(mark) => *mark,
        None => false,
    }
}
