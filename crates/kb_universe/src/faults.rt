//! What is wrong with an instruction that is no call.
ghost use Rattle.std.specs.Prelude.{◌≡◌, nat_le, option_map};
ghost use Rattle.std.specs.Option.{option_copied};
ghost use Rattle.kb_names.specs.Types.{shape_of};
ghost use Rattle.kb_universe.specs.Faults.{plain_fault, class_in_type, is_deepest, component_of_code, primitive_fault};

use crate::elements::element_class;
use kb_classes::What;
use kb_names::{ExactType, JType, Name};

/// What is wrong with an instruction.
#[derive(Clone, Copy)]
pub enum Fault<'a> {
    /// A field that is not there.
    NoField,
    /// A class that is not there.
    Missing(&'a Name),
    /// What cannot be carried out.
    Outside(What),
    /// A class that code initialises.
    Initialiser(&'a Name),
}

/// T_BOOLEAN (JVMS 8 table 6.5.newarray-A).
const BOOLEANS: u8 = 4;

/// T_INT.
const INTS: u8 = 10;

/// What is wrong with a newarray of that code.
pub fn primitive_fault(code: u8) -> Option<Fault<'static>>
    ensures { option_map plain_fault result ≡ primitive_fault code }
{
    match component_of_code(code) {
        Some(_) => None,
        None => Some(Fault::Outside(What::Kind)),
    }
}

/// The component of an array that newarray makes for a code: boolean or int, None of any other code (JVMS 8 table
/// 6.5.newarray-A).
pub fn component_of_code(code: u8) -> Option<JType>
    ensures { result ≡ component_of_code code }
{
    match code {
        BOOLEANS => Some(JType::Bool),
        INTS => Some(JType::Int),
        _ => None,
    }
}

/// The class that the type names, by itself or as an array's element.
pub fn class_in_type(of: &ExactType) -> Option<&Name>
    ensures { option_copied result ≡ class_in_type of.now }
{
    match of {
        ExactType::Class(name) => Some(name),
        ExactType::Array(component) => element_class(component),
    }
}

/// Whether no type has more dimensions.
pub fn is_deepest(of: &ExactType) -> bool
    ensures { result ≡ is_deepest of.now }
{
    match of {
        ExactType::Class(_) => false,
        ExactType::Array(component) => has_dimensions(component, 254),
    }
}

// Whether the type has so many dimensions, or more.
fn has_dimensions(of: &JType, count: u32) -> bool
    ensures { result ≡ nat_le count (shape_of of.now).dims }
{
    let mut inner = of;
    let mut left = count;
    while left > 0 {
        let JType::Array(component) = inner else {
            return false;
        };
        inner = component.get();
        left -= 1;
    }
    true
}
