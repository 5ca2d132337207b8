//! Which arrays an instruction takes, and places in them (JVMS 8 section 6.5).

ghost use Rattle.std.specs.Prelude.{◌≡◌};
ghost use Rattle.kb_semantics.specs.Instructions.{place_in_array};
ghost use Rattle.kb_semantics.specs.Values.{takes_component};

use kb_code::Elem;
use kb_names::JType;

/// Whether an array instruction of that kind takes arrays of the component. It takes no memory.
pub fn takes_component(elem: Elem, component: &JType) -> bool
    ensures { result ≡ takes_component elem component.now }
{
    match (elem, component) {
        (Elem::Int, JType::Int) => true,
        (Elem::Byte, JType::Bool) => true,
        (Elem::Ref, JType::Class(_) | JType::Array(_)) => true,
        _ => false,
    }
}

/// The place of an index in an array of that length: None where it lies outside. It takes no memory.
pub fn place_in_array(index: i32, len: usize) -> Option<u32>
    ensures { result ≡ place_in_array index len }
{
    let Ok(place) = u32::try_from(index) else {
        return None;
    };
    if place as usize >= len {
        return None;
    }
    Some(place)
}
