//! When two references are one.
ghost use Rattle.std.specs.Prelude.{◌≡◌};
ghost use Rattle.kb_ways.specs.Identity.{same};

use kb_frames::SymValue;

/// Whether two references are one.
pub fn same(one: SymValue, other: SymValue) -> bool
    ensures { result ≡ same one other }
{
    match (one, other) {
        (SymValue::Null, SymValue::Null) => true,
        (SymValue::Obj(one), SymValue::Obj(other)) => one == other,
        (SymValue::Literal(one), SymValue::Literal(other)) => one == other,
        (SymValue::New(one), SymValue::New(other)) => one == other,
        _ => false,
    }
}
