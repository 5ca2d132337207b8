//! Names and descriptors of class files, as texts.

ghost use Rattle.std.specs.Prelude.{◌≡◌, ◌↔◌, IsTrue, IfOk};
ghost use Rattle.std.specs.List.{list_all};
ghost use Rattle.kb_names.specs.Descriptors.{may_stand, MayStand, IsTypeText, IsMethodText};
ghost use Rattle.kb_names.specs.declared.class_names.Spelling.TheVariants.{Raw};
ghost use Rattle.kb_format.specs.Rules.{IsArrayText, IsEntryName};

use kb_names::{JType, NameRefusal, NoMemory, read_method_type, read_type};
use std::alloc::Global;

/// Whether a Class entry may name the text.
pub(crate) fn is_entry_name(alloc: Global, text: &[u8]) -> Result<bool, NoMemory>
    ensures { IfOk result (λ is. IsTrue is ↔ IsEntryName text.now) }
{
    if may_stand(text) {
        return Ok(true);
    }
    is_array_text(alloc, text)
}

// Whether the name of a class may stand in a descriptor.
fn may_stand(name: &[u8]) -> bool
    ensures { IsTrue result ↔ MayStand Raw name.now }
{
    if name.is_empty() {
        return false;
    }
    bytes_may_stand(name)
}

fn bytes_may_stand(bytes: &[u8]) -> bool
    ensures { result ≡ list_all may_stand bytes.now }
{
    bytes.iter().all(|byte| byte_may_stand(*byte))
}

fn byte_may_stand(byte: u8) -> bool
    ensures { result ≡ may_stand byte }
{
    !matches!(byte, b'.' | b';' | b'[')
}

fn is_array_text(alloc: Global, text: &[u8]) -> Result<bool, NoMemory>
    ensures { IfOk result (λ is. IsTrue is ↔ IsArrayText text.now) }
{
    match read_type(alloc, text) {
        Ok(JType::Array(_)) => Ok(true),
        Ok(_) => Ok(false),
        Err(NameRefusal::BadDescriptor(_)) => Ok(false),
        Err(NameRefusal::NoMemory) => Err(NoMemory),
    }
}

/// Whether the text is the descriptor of a field.
pub(crate) fn is_type_text(alloc: Global, text: &[u8]) -> Result<bool, NoMemory>
    ensures { IfOk result (λ is. IsTrue is ↔ IsTypeText Raw text.now) }
{
    match read_type(alloc, text) {
        Ok(_) => Ok(true),
        Err(NameRefusal::BadDescriptor(_)) => Ok(false),
        Err(NameRefusal::NoMemory) => Err(NoMemory),
    }
}

/// Whether the text is the descriptor of a method.
pub(crate) fn is_method_text(alloc: Global, text: &[u8]) -> Result<bool, NoMemory>
    ensures { IfOk result (λ is. IsTrue is ↔ IsMethodText Raw text.now) }
{
    match read_method_type(alloc, text) {
        Ok(_) => Ok(true),
        Err(NameRefusal::BadDescriptor(_)) => Ok(false),
        Err(NameRefusal::NoMemory) => Err(NoMemory),
    }
}
