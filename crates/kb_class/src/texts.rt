//! Texts of the constant pool, read as what they are there for.

ghost use Rattle.std.specs.Prelude.{◌≡◌, ℕ, List, ◌∷◌, Some, IfOk, IfSome, IfNone, IsSome};
ghost use Rattle.kb_classfile.specs.Pool.{utf8_of};
ghost use Rattle.kb_names.specs.Descriptors.{SpellsType, SpellsMethod, IsTypeText, IsMethodText};
ghost use Rattle.kb_names.specs.declared.class_names.Spelling.TheVariants.{Raw};
ghost use Rattle.kb_class.specs.Loading.{SpellsExact, SpellsKind};
ghost use Rattle.kb_class.specs.Tables.{SpellsItself, IsSpelling};

use crate::members::MemberKind;
use kb_classfile::ClassFile;
use kb_names::{
    ExactType, JType, MethodType, Name, NameRefusal, NoMemory, Row, read_method_type, read_type,
};
use std::alloc::Global;

/// The text of the Utf8 entry with that number.
pub(crate) fn text_of(file: &ClassFile, number: u16) -> &[u8]
    requires { IsSome (utf8_of file.now number) }
    ensures { utf8_of file.now number ≡ Some result.now }
{
    match file.utf8(number) {
        Some(text) => text,
        None => unreachable!(),
    }
}

// What a text says in one of its roles.
pub(crate) trait Spelled: Drop {
    ghost use Rattle.std.specs.Prelude.{ℕ, List};

    // A text says this.
    ghost spells: { Self → List ℕ → Type 0 };

    fn read(alloc: Global, text: &[u8]) -> Result<Self, NoMemory>
    where
        Self: Sized,
        requires { IsSpelling spells text.now }
        ensures { IfOk result (λ value. spells value text.now) };
}

/// The name of a field or method.
impl Spelled for Name {
    ghost spells = { SpellsItself };

    fn read(alloc: Global, text: &[u8]) -> Result<Name, NoMemory> {
        Name::from_slice(alloc, text)
    }
}

/// The text of a String entry.
impl Spelled for Row<u8> {
    ghost spells = { SpellsItself };

    fn read(alloc: Global, text: &[u8]) -> Result<Row<u8>, NoMemory> {
        Ok(Row::from_vec(text.to_vec(alloc)?))
    }
}

/// A type, by the name that a Class entry gives it.
impl Spelled for ExactType {
    ghost spells = { SpellsExact };

    fn read(alloc: Global, text: &[u8]) -> Result<ExactType, NoMemory> {
        match component_of(text) {
            Some(component) => Ok(ExactType::Array(type_of(alloc, component)?)),
            None => Ok(ExactType::Class(Name::from_slice(alloc, text)?)),
        }
    }
}

/// The type of a field or method, by its descriptor.
impl Spelled for MemberKind {
    ghost spells = { SpellsKind };

    fn read(alloc: Global, text: &[u8]) -> Result<MemberKind, NoMemory> {
        match text {
            [b'(', ..] => Ok(MemberKind::Method(method_type_of(alloc, text)?)),
            _ => Ok(MemberKind::Field(type_of(alloc, text)?)),
        }
    }
}

// What stands behind the bracket of an array's descriptor.
fn component_of(text: &[u8]) -> Option<&[u8]>
    ensures some { IfSome result (λ component. text.now ≡ 91 ∷ component.now) }
    ensures none { IfNone result ((rest : List ℕ) → text.now ≡ 91 ∷ rest → ⊥) }
{
    match text {
        [b'[', component @ ..] => Some(component),
        _ => None,
    }
}

fn type_of(alloc: Global, text: &[u8]) -> Result<JType, NoMemory>
    requires { IsTypeText Raw text.now }
    ensures { IfOk result (λ type. SpellsType Raw type text.now) }
{
    match read_type(alloc, text) {
        Ok(of) => Ok(of),
        Err(NameRefusal::NoMemory) => Err(NoMemory),
        Err(NameRefusal::BadDescriptor(_)) => unreachable!(),
    }
}

fn method_type_of(alloc: Global, text: &[u8]) -> Result<MethodType, NoMemory>
    requires { IsMethodText Raw text.now }
    ensures { IfOk result (λ kind. SpellsMethod Raw kind text.now) }
{
    match read_method_type(alloc, text) {
        Ok(kind) => Ok(kind),
        Err(NameRefusal::NoMemory) => Err(NoMemory),
        Err(NameRefusal::BadDescriptor(_)) => unreachable!(),
    }
}
