//! What has a type.

ghost use Rattle.std.specs.Prelude.{◌≡◌};
ghost use Rattle.kb_names.specs.declared.types.JType.{JType};

use kb_names::JType;
use kb_semantics::FieldSlot;

/// What has a type: a slot, or the type itself.
pub trait Typed {
    /// Its type.
    ghost kind: { Self → JType };

    /// Its type.
    fn kind(&self) -> &JType
        ensures { result.now ≡ kind self.now };
}

impl Typed for JType {
    ghost kind = { λ of. of };

    fn kind(&self) -> &JType {
        self
    }
}

impl Typed for FieldSlot {
    ghost kind = { λ slot. slot.kind };

    fn kind(&self) -> &JType {
        &self.kind
    }
}
