//! Descriptors are written.
ghost use Rattle.std.specs.Prelude.{◌≡◌, ℕ, ◌∷◌, [], ◌++◌, length, take, OnOk, OnErr};
ghost use Rattle.std.specs.Io.{appended_bytes};
ghost use Rattle.std.specs.List.{flat_map};
ghost use Rattle.kb_names.specs.Types.{shape_of};
ghost use Rattle.kb_names.specs.Descriptors.{class_text, type_text, result_text, method_text, MayStand, IsClassName, HasNameOf, CanSpellType, CanSpellTypes, CanSpellMethod, IsType, AreTypes, IsMethodType, SpellsType, SpellsMethod};

use crate::{JType, MethodType, Name, NoMemory, Spelling, write_name};

/// Appends the descriptor of the type, with the names of classes spelled so.
pub fn write_type(of: &JType, spelling: Spelling, into: &mut Vec<u8>) -> Result<(), NoMemory>
    ensures ok { OnOk result (into.new.items ≡ into.old.items ++ type_text spelling of.now) }
    ensures spelled { OnOk result (CanSpellType spelling of.now → SpellsType spelling of.now (appended_bytes into.old.items into.new.items)) }
    ensures err { OnErr result (into.new.items ≡ into.old.items) }
{
    let start = into.len();
    let written = append_type(of, spelling, into);
    if written.is_err() {
        into.truncate(start);
    }
    written
}

/// Appends the descriptor of a method, with the names of classes spelled so.
pub fn write_method_type(
    kind: &MethodType,
    spelling: Spelling,
    into: &mut Vec<u8>,
) -> Result<(), NoMemory>
    ensures ok { OnOk result (into.new.items ≡ into.old.items ++ method_text spelling kind.now) }
    ensures spelled { OnOk result (CanSpellMethod spelling kind.now → SpellsMethod spelling kind.now (appended_bytes into.old.items into.new.items)) }
    ensures err { OnErr result (into.new.items ≡ into.old.items) }
{
    let start = into.len();
    let written = append_method(kind, spelling, into);
    if written.is_err() {
        into.truncate(start);
    }
    written
}

// The functions below leave, after an `Err`, a part of what they write.

fn append_method(kind: &MethodType, spelling: Spelling, into: &mut Vec<u8>) -> Result<(), NoMemory>
    ensures ok { OnOk result (into.new.items ≡ into.old.items ++ method_text spelling kind.now) }
    ensures is { OnOk result (CanSpellMethod spelling kind.now → IsMethodType spelling kind.now) }
    ensures kept { take (length into.old.items) into.new.items ≡ into.old.items }
{
    append_byte(b'(', into)?;
    append_types(kind.params.as_slice(), spelling, into)?;
    append_byte(b')', into)?;
    match &kind.result {
        Some(of) => append_type(of, spelling, into),
        None => append_byte(b'V', into),
    }
}

fn append_types(types: &[JType], spelling: Spelling, into: &mut Vec<u8>) -> Result<(), NoMemory>
    ensures ok { OnOk result (into.new.items ≡ into.old.items ++ flat_map (type_text spelling) types.now) }
    ensures are { OnOk result (CanSpellTypes spelling types.now → AreTypes spelling types.now) }
    ensures kept { take (length into.old.items) into.new.items ≡ into.old.items }
{
    let mut rest = types;
    while let [first, others @ ..] = rest {
        append_type(first, spelling, into)?;
        rest = others;
    }
    Ok(())
}

fn append_type(of: &JType, spelling: Spelling, into: &mut Vec<u8>) -> Result<(), NoMemory>
    ensures ok { OnOk result (into.new.items ≡ into.old.items ++ type_text spelling of.now) }
    ensures is { OnOk result (CanSpellType spelling of.now → IsType spelling of.now) }
    ensures kept { take (length into.old.items) into.new.items ≡ into.old.items }
{
    let mut base = of;
    while let JType::Array(component) = base {
        append_byte(b'[', into)?;
        base = component.get();
    }
    append_base(base, spelling, into)
}

fn append_base(base: &JType, spelling: Spelling, into: &mut Vec<u8>) -> Result<(), NoMemory>
    requires { (shape_of base.now).dims ≡ 0 }
    ensures ok { OnOk result (into.new.items ≡ into.old.items ++ type_text spelling base.now) }
    ensures is { OnOk result (HasNameOf (MayStand spelling) (shape_of base.now).base → HasNameOf (IsClassName spelling) (shape_of base.now).base) }
    ensures kept { take (length into.old.items) into.new.items ≡ into.old.items }
{
    match base {
        JType::Bool => append_byte(b'Z', into),
        JType::Byte => append_byte(b'B', into),
        JType::Char => append_byte(b'C', into),
        JType::Short => append_byte(b'S', into),
        JType::Int => append_byte(b'I', into),
        JType::Long => append_byte(b'J', into),
        JType::Float => append_byte(b'F', into),
        JType::Double => append_byte(b'D', into),
        JType::Class(name) => append_class(name, spelling, into),
        JType::Array(_) => unreachable!(),
    }
}

fn append_class(name: &Name, spelling: Spelling, into: &mut Vec<u8>) -> Result<(), NoMemory>
    ensures ok { OnOk result (into.new.items ≡ into.old.items ++ 76 ∷ (class_text spelling name.now ++ 59 ∷ [])) }
    ensures is { OnOk result (MayStand spelling name.now → IsClassName spelling name.now) }
    ensures kept { take (length into.old.items) into.new.items ≡ into.old.items }
{
    append_byte(b'L', into)?;
    append_name(name, spelling, into)?;
    append_byte(b';', into)
}

fn append_name(name: &Name, spelling: Spelling, into: &mut Vec<u8>) -> Result<(), NoMemory>
    ensures ok { OnOk result (into.new.items ≡ into.old.items ++ class_text spelling name.now) }
    ensures is { OnOk result (MayStand spelling name.now → IsClassName spelling name.now) }
    ensures kept { take (length into.old.items) into.new.items ≡ into.old.items }
{
    match spelling {
        Spelling::Raw => match into.extend_from_slice(name.as_slice()) {
            Ok(()) => Ok(()),
            Err(_) => Err(NoMemory),
        },
        Spelling::Escaped => write_name(name, into),
    }
}

pub(crate) fn append_byte(byte: u8, into: &mut Vec<u8>) -> Result<(), NoMemory>
    ensures ok { OnOk result (into.new.items ≡ into.old.items ++ byte ∷ []) }
    ensures err { OnErr result (into.new.items ≡ into.old.items) }
{
    match into.push(byte) {
        Ok(()) => Ok(()),
        Err(_) => Err(NoMemory),
    }
}
