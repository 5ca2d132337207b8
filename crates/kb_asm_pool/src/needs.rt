//! Which entries of a constant pool a line needs.

ghost use Rattle.std.specs.Prelude.{◌≡◌, ◌++◌, Some, slice_get, IfOk, OnOk};
ghost use Rattle.kb_names.specs.Descriptors.{type_text, method_text};
ghost use Rattle.kb_names.specs.declared.class_names.Spelling.TheVariants.{Raw};
ghost use Rattle.kb_asm_pool.specs.Says.{added, all_added, class as says_class};
ghost use Rattle.kb_asm_pool.specs.Needs.{kind_of_call, field_needs, field_says, call_needs, call_says, constant_says, constant_needs, ref_name, class_needs, operand_needs, code_needs, caught_needs, body_needs, line_needs};

use crate::NoMemory;
use crate::items::{Items, ReferenceKind};
use kb_asm_text::{
    BodyLine, Catch, ClassHead, ClassRef, Constant, FieldHead, FieldName, Line, MethodHead, Operand,
};
use kb_code::INVOKEINTERFACE;
use kb_names::{JType, MethodType, Spelling, Target, write_method_type, write_type};
use std::alloc::Global;

/// The descriptor of a type as it stands in a class file.
pub fn type_bytes(alloc: Global, of: &JType) -> Result<Vec<u8>, NoMemory>
    ensures { IfOk result (λ bytes. bytes.items ≡ type_text Raw of.now) }
{
    let mut bytes = Vec::new(alloc);
    write_type(of, Spelling::Raw, &mut bytes)?;
    Ok(bytes)
}

/// The descriptor of a method as it stands in a class file.
pub fn method_bytes(alloc: Global, kind: &MethodType) -> Result<Vec<u8>, NoMemory>
    ensures { IfOk result (λ bytes. bytes.items ≡ method_text Raw kind.now) }
{
    let mut bytes = Vec::new(alloc);
    write_method_type(kind, Spelling::Raw, &mut bytes)?;
    Ok(bytes)
}

/// Which kind of member an instruction with this opcode calls.
pub fn kind_of_call(op: u8) -> ReferenceKind
    ensures { result ≡ kind_of_call op }
{
    if op == INVOKEINTERFACE {
        ReferenceKind::InterfaceMethod
    } else {
        ReferenceKind::Method
    }
}

/// Adds a constant, and gives its place.
pub fn add_constant(items: &mut Items, alloc: Global, of: &Constant) -> Result<usize, NoMemory>
    ensures says { OnOk result (items.new.says ≡ all_added items.old.says (constant_needs of.now)) }
    ensures entry { IfOk result (λ entry. slice_get items.new.says entry ≡ Some (constant_says of.now)) }
{
    match of {
        Constant::Int(number) => items.int(*number),
        Constant::Text(text) => items.string(alloc, text.as_slice()),
    }
}

/// Adds a constant, a string without its text, and gives its place.
pub fn add_alone(items: &mut Items, alloc: Global, of: &Constant) -> Result<usize, NoMemory>
    ensures says { OnOk result (items.new.says ≡ added items.old.says (constant_says of.now)) }
    ensures entry { IfOk result (λ entry. slice_get items.new.says entry ≡ Some (constant_says of.now)) }
{
    match of {
        Constant::Int(number) => items.int(*number),
        Constant::Text(text) => items.string_alone(alloc, text.as_slice()),
    }
}

/// Adds the field that an instruction names, and gives its place.
pub fn add_field(items: &mut Items, alloc: Global, field: &FieldName) -> Result<usize, NoMemory>
    ensures says { OnOk result (items.new.says ≡ all_added items.old.says (field_needs field.now)) }
    ensures entry { IfOk result (λ entry. slice_get items.new.says entry ≡ Some (field_says field.now)) }
{
    let kind = type_bytes(alloc, &field.kind)?;
    items.member(
        alloc,
        ReferenceKind::Field,
        field.class.as_slice(),
        field.name.as_slice(),
        kind.as_slice(),
    )
}

/// Adds the method that an instruction with this opcode calls, and gives its place.
pub fn add_call(
    items: &mut Items,
    alloc: Global,
    op: u8,
    target: &Target,
) -> Result<usize, NoMemory>
    ensures says { OnOk result (items.new.says ≡ all_added items.old.says (call_needs op target.now)) }
    ensures entry { IfOk result (λ entry. slice_get items.new.says entry ≡ Some (call_says op target.now)) }
{
    let kind = method_bytes(alloc, &target.kind)?;
    items.member(
        alloc,
        kind_of_call(op),
        target.class.as_slice(),
        target.name.as_slice(),
        kind.as_slice(),
    )
}

/// Adds a class or an array type, and gives its place.
pub fn add_ref(items: &mut Items, alloc: Global, of: &ClassRef) -> Result<usize, NoMemory>
    ensures says { OnOk result (items.new.says ≡ all_added items.old.says (class_needs (ref_name of.now))) }
    ensures entry { IfOk result (λ entry. slice_get items.new.says entry ≡ Some (says_class (ref_name of.now))) }
{
    match of {
        ClassRef::Class(name) => items.class(alloc, name.as_slice()),
        ClassRef::Array(of) => {
            let name = type_bytes(alloc, of)?;
            items.class(alloc, name.as_slice())
        }
    }
}

fn add_operand(items: &mut Items, alloc: Global, op: u8, operand: &Operand) -> Result<(), NoMemory>
    ensures { OnOk result (items.new.says ≡ all_added items.old.says (operand_needs op operand.now)) }
{
    match operand {
        Operand::Constant(of) => add_constant(items, alloc, of)?,
        Operand::Field(field) => add_field(items, alloc, field)?,
        Operand::Method(target) => add_call(items, alloc, op, target)?,
        Operand::New(name) => items.class(alloc, name.as_slice())?,
        Operand::Type(of) => add_ref(items, alloc, of)?,
        _ => 0,
    };
    Ok(())
}

fn add_caught(items: &mut Items, alloc: Global, row: &Catch) -> Result<(), NoMemory>
    ensures { OnOk result (items.new.says ≡ all_added items.old.says (caught_needs row.now.class)) }
{
    if let Some(class) = &row.class {
        items.class(alloc, class.as_slice())?;
    }
    Ok(())
}

fn add_body(items: &mut Items, alloc: Global, line: &BodyLine) -> Result<(), NoMemory>
    ensures { OnOk result (items.new.says ≡ all_added items.old.says (body_needs line.now)) }
{
    match line {
        BodyLine::Instr(op, operand) => add_operand(items, alloc, *op, operand),
        BodyLine::Catch(row) => add_caught(items, alloc, row),
        _ => Ok(()),
    }
}

fn add_class(items: &mut Items, alloc: Global, head: &ClassHead) -> Result<(), NoMemory>
    ensures { OnOk result (items.new.says ≡ all_added items.old.says (class_needs head.now.name ++ class_needs head.now.parent)) }
{
    items.class(alloc, head.name.as_slice())?;
    items.class(alloc, head.parent.as_slice())?;
    Ok(())
}

fn add_member(items: &mut Items, alloc: Global, head: &FieldHead) -> Result<(), NoMemory>
    ensures { OnOk result (items.new.says ≡ all_added items.old.says (line_needs (Line.Field head.now))) }
{
    let kind = type_bytes(alloc, &head.kind)?;
    items.text(alloc, head.name.as_slice())?;
    items.text(alloc, kind.as_slice())?;
    Ok(())
}

fn add_method(items: &mut Items, alloc: Global, head: &MethodHead) -> Result<(), NoMemory>
    ensures { OnOk result (items.new.says ≡ all_added items.old.says (line_needs (Line.Method head.now))) }
{
    let kind = method_bytes(alloc, &head.kind)?;
    items.text(alloc, head.name.as_slice())?;
    items.text(alloc, kind.as_slice())?;
    if head.sizes.is_some() {
        items.text(alloc, b"Code")?;
    }
    Ok(())
}

/// Adds the entries that the line needs.
pub fn add_needs(items: &mut Items, alloc: Global, line: &Line) -> Result<(), NoMemory>
    ensures { OnOk result (items.new.says ≡ all_added items.old.says (line_needs line.now)) }
{
    match line {
        Line::Class(head) => add_class(items, alloc, head),
        Line::Implements(name) => {
            items.class(alloc, name.as_slice())?;
            Ok(())
        }
        Line::Field(head) => add_member(items, alloc, head),
        Line::Method(head) => add_method(items, alloc, head),
        Line::Body(line) => add_body(items, alloc, line),
        Line::End => Ok(()),
    }
}
