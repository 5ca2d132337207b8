//! Writing class files (JVMS 8 section 4.1).

ghost use Rattle.std.specs.Prelude.{◌≡◌, ◌<◌, ◌^◌, ◌++◌, length, IfOk, OnOk};
ghost use Rattle.std.specs.List.{AllByRecursion, flat_map};
ghost use Rattle.kb_classfile.specs.Spelling.{Spells};
ghost use Rattle.kb_writer.specs.Numbers.{u2};
ghost use Rattle.kb_writer.specs.Files.{HasSizes, IfCode, IsWritable, FitsIndex, FitsField, FitsMethod, Fits, table, field_bytes, method_bytes, head_bytes, class_bytes};

use crate::NoMemory;
use crate::code_writer::push_method_code;
use crate::numbers::{push_count, push_u2, push_u4};
use crate::pool_writer::push_pool;
use kb_classfile::{ClassFile, Field, Method};
use std::alloc::Global;

/// The interfaces, behind their count.
fn push_interfaces(into: &mut Vec<u8>, interfaces: &[u16]) -> Result<(), NoMemory>
    requires { length interfaces.now < 2 ^ 16 }
    ensures bytes { OnOk result (into.new.items ≡ into.old.items ++ table u2 interfaces.now) }
    ensures numbers { OnOk result (AllByRecursion FitsIndex interfaces.now) }
{
    push_count(into, interfaces.len())?;
    let mut rest = interfaces;
    while let [first, others @ ..] = rest {
        push_u2(into, *first)?;
        rest = others;
    }
    Ok(())
}

/// A field, which has no attributes.
#[tactic(auto, unfolding(crate::specs::Files::field_bytes))]
fn push_field(into: &mut Vec<u8>, field: Field) -> Result<(), NoMemory>
    ensures bytes { OnOk result (into.new.items ≡ into.old.items ++ field_bytes field) }
    ensures numbers { OnOk result (FitsField field) }
{
    push_u2(into, field.access)?;
    push_u2(into, field.name)?;
    push_u2(into, field.kind)?;
    push_u2(into, 0)
}

/// The fields, behind their count.
fn push_fields(into: &mut Vec<u8>, fields: &[Field]) -> Result<(), NoMemory>
    requires { length fields.now < 2 ^ 16 }
    ensures bytes { OnOk result (into.new.items ≡ into.old.items ++ table field_bytes fields.now) }
    ensures numbers { OnOk result (AllByRecursion FitsField fields.now) }
{
    push_count(into, fields.len())?;
    let mut rest = fields;
    while let [first, others @ ..] = rest {
        push_field(into, *first)?;
        rest = others;
    }
    Ok(())
}

/// A method, which has no attributes but its code.
#[tactic(auto, unfolding(crate::specs::Files::method_bytes))]
fn push_method(into: &mut Vec<u8>, method: &Method, code_name: u16) -> Result<(), NoMemory>
    requires { IfCode HasSizes method.now.code }
    ensures bytes { OnOk result (into.new.items ≡ into.old.items ++ method_bytes code_name method.now) }
    ensures numbers { OnOk result (FitsMethod method.now) }
{
    push_u2(into, method.access)?;
    push_u2(into, method.name)?;
    push_u2(into, method.kind)?;
    push_method_code(into, &method.code, code_name)
}

/// The methods, behind their count.
fn push_methods(into: &mut Vec<u8>, methods: &[Method], code_name: u16) -> Result<(), NoMemory>
    requires count { length methods.now < 2 ^ 16 }
    requires sizes { AllByRecursion (λ method. IfCode HasSizes method.code) methods.now }
    ensures bytes { OnOk result (into.new.items ≡ into.old.items ++ table (method_bytes code_name) methods.now) }
    ensures numbers { OnOk result (AllByRecursion FitsMethod methods.now) }
{
    push_count(into, methods.len())?;
    let mut rest = methods;
    while let [first, others @ ..] = rest {
        push_method(into, first, code_name)?;
        rest = others;
    }
    Ok(())
}

/// What stands before the pool: the number that each class file begins with, and the version.
fn push_head(into: &mut Vec<u8>, major: u16) -> Result<(), NoMemory>
    ensures { OnOk result (into.new.items ≡ into.old.items ++ head_bytes major) }
{
    push_u4(into, 0xcafe_babe)?;
    push_u2(into, 0)?;
    push_u2(into, major)
}

/// The bytes of a class file, appended.
#[tactic(auto, unfolding(crate::specs::Files::class_bytes))]
fn push_class(into: &mut Vec<u8>, file: &ClassFile, code_name: u16) -> Result<(), NoMemory>
    requires { IsWritable code_name file.now }
    ensures bytes { OnOk result (into.new.items ≡ into.old.items ++ class_bytes code_name file.now) }
    ensures numbers { OnOk result (Fits code_name file.now) }
{
    push_head(into, file.major)?;
    push_pool(into, file.pool.as_slice())?;
    push_u2(into, file.access)?;
    push_u2(into, file.this)?;
    push_u2(into, file.parent)?;
    push_interfaces(into, file.interfaces.as_slice())?;
    push_fields(into, file.fields.as_slice())?;
    push_methods(into, file.methods.as_slice(), code_name)?;
    push_u2(into, 0)
}

/// The bytes of a class file, with the minor version 0 and without attributes but Code.
///
/// `code_name` is the number of the pool entry of the text Code, if a method has code; if none has, it may be any.
pub fn write_class(alloc: Global, file: &ClassFile, code_name: u16) -> Result<Vec<u8>, NoMemory>
    requires { IsWritable code_name file.now }
    ensures bytes { IfOk result (λ bytes. bytes.items ≡ class_bytes code_name file.now) }
    ensures spelled { IfOk result (λ bytes. Spells file.now bytes.items) }
{
    let mut bytes = Vec::new(alloc);
    push_class(&mut bytes, file, code_name)?;
    Ok(bytes)
}
