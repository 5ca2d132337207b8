//! The values with which slots and elements begin (JVMS 8 sections 2.3 and 2.4).

ghost use Rattle.std.specs.Prelude.{◌≡◌, map, IfOk};
ghost use Rattle.kb_semantics.specs.Values.{default_of};

use crate::NoMemory;
use crate::typed::Typed;
use kb_heap::{Row, Value};
use kb_names::JType;
use std::alloc::Global;

/// The default value of each of these slots, or of each of these types.
pub fn default_values<P: Typed>(alloc: Global, places: &[P]) -> Result<Row<Value>, NoMemory>
    ensures { IfOk result (λ values. values ≡ map (λ place. default_of (P.kind place)) places.now) }
{
    let mut values = Row::new(alloc);
    for place in places {
        values.push(default_of(place.kind()))?;
    }
    Ok(values)
}

/// The default value of a slot or an element of the type. It takes no memory.
pub fn default_of(of: &JType) -> Value
    ensures { result ≡ default_of of.now }
{
    match of {
        JType::Class(_) | JType::Array(_) => Value::Null,
        _ => Value::Int(0),
    }
}
