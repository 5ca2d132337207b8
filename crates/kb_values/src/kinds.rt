//! Which values are of which types, and the value of a reference.

ghost use Rattle.std.specs.Prelude.{◌≡◌, ◌∷◌};
ghost use Rattle.kb_names.specs.declared.types.JType.TheVariants as types;
ghost use Rattle.kb_class.specs.Platform.{object_name};
ghost use Rattle.kb_semantics.specs.Operands.{are_of_kinds, value_of_reference};
ghost use Rattle.kb_semantics.specs.Values.{is_of_kind, kept};

use kb_heap::Value;
use kb_names::JType;

/// What a slot, an element or a result of the type keeps of a value.
pub fn kept(of: &JType, value: Value) -> Option<Value>
    ensures { result ≡ kept of.now value }
{
    match (of, value) {
        (JType::Bool, Value::Int(number)) => Some(Value::Int(kb_arith::and(number, 1))),
        (JType::Int, Value::Int(_)) => Some(value),
        (JType::Class(_), Value::Null | Value::Ref(_)) => Some(value),
        (JType::Array(_), Value::Null | Value::Ref(_)) => Some(value),
        _ => None,
    }
}

/// Whether a parameter of the type takes the value.
pub fn is_of_kind(of: &JType, value: Value) -> bool
    ensures { result ≡ is_of_kind of.now value }
{
    kept(of, value).is_some()
}

/// Whether each parameter takes its value.
pub fn are_of_kinds(params: &[JType], values: &[Value]) -> bool
    ensures { result ≡ are_of_kinds params.now values.now }
{
    let mut of = params;
    let mut rest = values;
    while let [first, others @ ..] = of {
        let [value, more @ ..] = rest else {
            return false;
        };
        if !is_of_kind(first, *value) {
            return false;
        }
        of = others;
        rest = more;
    }
    rest.is_empty()
}

/// Whether the first value is a reference, and each parameter takes its value of those behind it.
pub fn are_with_receiver(params: &[JType], values: &[Value]) -> bool
    ensures { result ≡ are_of_kinds (types.Class object_name ∷ params.now) values.now }
{
    match values {
        [Value::Null | Value::Ref(_), rest @ ..] => are_of_kinds(params, rest),
        _ => false,
    }
}

/// The value of a reference.
pub fn value_of(reference: Option<u32>) -> Value
    ensures { result ≡ value_of_reference reference }
{
    match reference {
        Some(object) => Value::Ref(object),
        None => Value::Null,
    }
}
