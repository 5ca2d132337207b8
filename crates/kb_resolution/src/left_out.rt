//! Types that no parameter or result of a method may be of.
ghost use Rattle.std.specs.Prelude.{◌≡◌};
ghost use Rattle.std.specs.List.{list_any};
ghost use Rattle.kb_resolution.specs.LeftOut.{is_left_out, has_left_out};

use kb_names::{JType, MethodType};

/// Whether a parameter or the result is of a type that is left out: byte, char, short, long, float or double.
pub fn has_left_out(kind: &MethodType) -> bool
    ensures { result ≡ has_left_out kind.now }
{
    if is_any_left_out(kind.params.as_slice()) {
        return true;
    }
    match &kind.result {
        Some(of) => is_left_out(of),
        None => false,
    }
}

fn is_any_left_out(types: &[JType]) -> bool
    ensures { result ≡ list_any is_left_out types.now }
{
    let mut rest = types;
    while let [of, others @ ..] = rest {
        if is_left_out(of) {
            return true;
        }
        rest = others;
    }
    false
}

fn is_left_out(of: &JType) -> bool
    ensures { result ≡ is_left_out of.now }
{
    match of {
        JType::Byte | JType::Char | JType::Short => true,
        JType::Long | JType::Float | JType::Double => true,
        _ => false,
    }
}
