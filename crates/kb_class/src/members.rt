//! Fields and methods, in plain terms.
ghost use Rattle.std.specs.Prelude.{◌≡◌};
ghost use Rattle.kb_class.specs.Members.{is_static};

use crate::ids::ClassId;
use kb_classfile::STATIC;
use kb_code::{Handler, Listing};
use kb_names::{JType, MethodType, Name, Row};

/// The type of a field or of a method (JVMS 8 section 4.3).
#[derive(Drop)]
pub enum MemberKind {
    Field(JType),
    Method(MethodType),
}

/// A field that a class declares, with its access flags (JVMS 8 section 4.5).
#[derive(Drop)]
pub struct FieldInfo {
    pub access: u16,
    pub name: Name,
    pub kind: JType,
}

/// The code of a method (JVMS 8 section 4.7.3): `size` is its length in bytes, 1 to 65,535.
#[derive(Drop)]
pub struct MethodCode {
    pub max_stack: u16,
    pub max_locals: u16,
    pub size: u32,
    pub listing: Listing,
    pub handlers: Row<Handler>,
}

/// A method, with the class that declares it and its access flags (JVMS 8 section 4.6). No code where the method is abstract,
/// native, or one of a platform class.
#[derive(Drop)]
pub struct MethodInfo {
    pub class: ClassId,
    pub access: u16,
    pub name: Name,
    pub kind: MethodType,
    pub code: Option<MethodCode>,
}

/// Whether these are the access flags of a static field or method.
pub fn is_static(access: u16) -> bool
    ensures { result ≡ is_static access }
{
    access & STATIC != 0
}
