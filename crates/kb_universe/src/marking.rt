//! The marks of a universe, made by one walk over it for each kind.
ghost use Rattle.std.specs.Prelude.{◌≡◌, ℕ, suc, ◌+◌, ◌||◌, ◌∷◌, [], false, max, length, slice_index_or, IfOk, OnOk};
ghost use Rattle.std.specs.List.{list_any};
ghost use Rattle.kb_names.specs.Types.{shape_of};
ghost use Rattle.kb_classes.specs.Subtypes.{shape_of_exact};
ghost use Rattle.kb_universe.specs.Marks.{class_types, is_class_at, dims_over, most_over, longest_of};

use crate::elements::{dims_of, element_number};
use kb_link::Linked;
use kb_names::{ExactType, JType, NoMemory};
use std::alloc::Global;

/// Of each class whether it is of the universe.
pub(crate) fn own_marks(alloc: Global, linked: &Linked) -> Result<Vec<bool>, NoMemory>
    ensures { IfOk result (λ own. (number : ℕ) → slice_index_or own.items number false ≡ list_any (is_class_at linked.now.classes number) linked.now.universe) }
{
    let mut own = vec![in alloc; false; linked.class_count() as usize]?;
    let mut rest = linked.universe();
    while let [of, others @ ..] = rest {
        mark_class(linked, of, &mut own);
        rest = others;
    }
    Ok(own)
}

// Marks the type, where it is a class.
fn mark_class(linked: &Linked, of: &ExactType, own: &mut Vec<bool>)
    requires { length own.old.items ≡ length linked.now.classes }
    ensures size { length own.new.items ≡ length linked.now.classes }
    ensures marks { (number : ℕ) → slice_index_or own.new.items number false ≡ (slice_index_or own.old.items number false || is_class_at linked.now.classes number of.now) }
{
    let ExactType::Class(name) = of else {
        return;
    };
    let Some(class) = linked.class_named(name) else {
        return;
    };
    own[class.0 as usize] = true;
}

/// Of each element the most dimensions of an array over it: that of boolean, that of int, and then those of the classes.
pub(crate) fn most_dims(alloc: Global, linked: &Linked) -> Result<Vec<u32>, NoMemory>
    ensures { IfOk result (λ most. (element : ℕ) → slice_index_or most.items element 0 ≡ most_over linked.now.classes element linked.now.universe) }
{
    let mut most = vec![in alloc; 0; linked.class_count() as usize + 2]?;
    let mut rest = linked.universe();
    while let [of, others @ ..] = rest {
        raise(linked, of, &mut most)?;
        rest = others;
    }
    Ok(most)
}

// Raises the most dimensions of the element of the type, where it is an array.
fn raise(linked: &Linked, of: &ExactType, most: &mut Vec<u32>) -> Result<(), NoMemory>
    requires { length most.old.items ≡ length linked.now.classes + 2 }
    ensures size { OnOk result (length most.new.items ≡ length linked.now.classes + 2) }
    ensures raised { OnOk result ((element : ℕ) → slice_index_or most.new.items element 0 ≡ max (slice_index_or most.old.items element 0) (dims_over linked.now.classes element of.now)) }
{
    let ExactType::Array(component) = of else {
        return Ok(());
    };
    let Some(element) = element_number(linked, component) else {
        return Ok(());
    };
    let dims = array_dims(component)?;
    if most[element] < dims {
        most[element] = dims;
    }
    Ok(())
}

// How many dimensions the array of that component has.
fn array_dims(component: &JType) -> Result<u32, NoMemory>
    ensures { IfOk result (λ dims. dims ≡ suc (shape_of component.now).dims) }
{
    match dims_of(component).checked_add(1) {
        Some(dims) => Ok(dims),
        None => Err(NoMemory),
    }
}

/// The most dimensions of one of these types.
pub(crate) fn longest_of(types: &[ExactType]) -> Result<u32, NoMemory>
    ensures { IfOk result (λ dims. dims ≡ longest_of types.now) }
{
    let mut longest = 0;
    let mut rest = types;
    while let [of, others @ ..] = rest {
        longest = longest.max(exact_dims(of)?);
        rest = others;
    }
    Ok(longest)
}

// How many dimensions the type has.
fn exact_dims(of: &ExactType) -> Result<u32, NoMemory>
    ensures { IfOk result (λ dims. dims ≡ (shape_of_exact of.now).dims) }
{
    match of {
        ExactType::Class(_) => Ok(0),
        ExactType::Array(component) => array_dims(component),
    }
}

/// How many of these types are classes. More than 2^32 count as out of memory.
pub(crate) fn class_count(types: &[ExactType]) -> Result<u32, NoMemory>
    ensures { IfOk result (λ count. count ≡ length (class_types types.now)) }
{
    let mut count: u32 = 0;
    let mut rest = types;
    while let [of, others @ ..] = rest {
        let Some(more) = count.checked_add(class_weight(of)) else {
            return Err(NoMemory);
        };
        count = more;
        rest = others;
    }
    Ok(count)
}

// 1 for a class, else 0.
fn class_weight(of: &ExactType) -> u32
    ensures { result ≡ length (class_types (of.now ∷ [])) }
{
    match of {
        ExactType::Class(_) => 1,
        ExactType::Array(_) => 0,
    }
}
