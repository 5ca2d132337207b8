//! Types by their dimensions and their elements.
ghost use Rattle.std.specs.Prelude.{◌≡◌, min};
ghost use Rattle.std.specs.Option.{option_copied};
ghost use Rattle.kb_names.specs.Shape.{class_base};
ghost use Rattle.kb_names.specs.Types.{shape_of};
ghost use Rattle.kb_universe.specs.Marks.{element_in, name_of_base};

use kb_link::Linked;
use kb_names::{JType, Name};

/// How many dimensions the type has: 2^32 - 1 where it has more.
pub(crate) fn dims_of(of: &JType) -> u32
    ensures { result ≡ min (shape_of of.now).dims 4294967295 }
{
    let mut dims: u32 = 0;
    let mut inner = of;
    while let JType::Array(component) = inner {
        dims = dims.saturating_add(1);
        inner = component.get();
    }
    dims
}

/// The class that the type is, or that its elements are.
pub(crate) fn element_class(of: &JType) -> Option<&Name>
    ensures { option_copied result ≡ name_of_base (shape_of of.now).base }
{
    let mut element = of;
    while let JType::Array(component) = element {
        element = component.get();
    }
    match element {
        JType::Class(name) => Some(name),
        _ => None,
    }
}

/// The number of what the type is, or of what its elements are, among what the elements of an array may be.
pub(crate) fn element_number(linked: &Linked, of: &JType) -> Option<usize>
    ensures { result ≡ element_in linked.now.classes (shape_of of.now).base }
{
    let mut element = of;
    while let JType::Array(component) = element {
        element = component.get();
    }
    match element {
        JType::Bool => Some(0),
        JType::Int => Some(1),
        JType::Class(name) => class_element(linked, name),
        _ => None,
    }
}

// The number of the class of that name among what the elements of an array may be.
fn class_element(linked: &Linked, name: &Name) -> Option<usize>
    ensures { result ≡ element_in linked.now.classes (class_base name.now) }
{
    match linked.class_named(name) {
        Some(class) => Some(class.0 as usize + 2),
        None => None,
    }
}
