//! Whether the texts of a line are short enough for a class file.

ghost use Rattle.std.specs.Prelude.{◌≡◌, nat_le, length, IfOk};
ghost use Rattle.std.specs.List.{list_all};
ghost use Rattle.kb_names.specs.Descriptors.{type_text, method_text};
ghost use Rattle.kb_names.specs.declared.class_names.Spelling.TheVariants.{Raw};
ghost use Rattle.kb_asm_pool.specs.Needs.{ref_name, operand_needs, caught_needs, body_needs, line_needs};
ghost use Rattle.kb_asm_check.specs.Limits.{is_short as says_short};

use crate::NoMemory;
use kb_asm_pool::{method_bytes, type_bytes};
use kb_asm_text::{BodyLine, Catch, ClassRef, Constant, FieldName, Line, Operand};
use kb_names::{JType, MethodType, Name, Target};
use std::alloc::Global;

/// The most bytes of a text in a class file.
const MOST_BYTES: usize = 65_535;

fn is_short(bytes: &[u8]) -> bool
    ensures { result ≡ nat_le (length bytes.now) 65535 }
{
    bytes.len() <= MOST_BYTES
}

fn is_name_short(name: &Name) -> bool
    ensures { result ≡ nat_le (length name.now) 65535 }
{
    is_short(name.as_slice())
}

fn is_type_short(alloc: Global, of: &JType) -> Result<bool, NoMemory>
    ensures { IfOk result (λ short. short ≡ nat_le (length (type_text Raw of.now)) 65535) }
{
    Ok(is_short(type_bytes(alloc, of)?.as_slice()))
}

fn is_method_short(alloc: Global, kind: &MethodType) -> Result<bool, NoMemory>
    ensures { IfOk result (λ short. short ≡ nat_le (length (method_text Raw kind.now)) 65535) }
{
    Ok(is_short(method_bytes(alloc, kind)?.as_slice()))
}

fn is_ref_short(alloc: Global, of: &ClassRef) -> Result<bool, NoMemory>
    ensures { IfOk result (λ short. short ≡ nat_le (length (ref_name of.now)) 65535) }
{
    match of {
        ClassRef::Class(name) => Ok(is_name_short(name)),
        ClassRef::Array(of) => is_type_short(alloc, of),
    }
}

fn is_field_short(alloc: Global, field: &FieldName) -> Result<bool, NoMemory>
    ensures { IfOk result (λ short. short ≡ list_all says_short (operand_needs 0xb4 (Operand.Field field.now))) }
{
    if !is_name_short(&field.class) {
        return Ok(false);
    }
    if !is_name_short(&field.name) {
        return Ok(false);
    }
    is_type_short(alloc, &field.kind)
}

fn is_call_short(alloc: Global, op: u8, target: &Target) -> Result<bool, NoMemory>
    ensures { IfOk result (λ short. short ≡ list_all says_short (operand_needs op (Operand.Method target.now))) }
{
    if !is_name_short(&target.class) {
        return Ok(false);
    }
    if !is_name_short(&target.name) {
        return Ok(false);
    }
    is_method_short(alloc, &target.kind)
}

fn is_operand_short(alloc: Global, op: u8, operand: &Operand) -> Result<bool, NoMemory>
    ensures { IfOk result (λ short. short ≡ list_all says_short (operand_needs op operand.now)) }
{
    match operand {
        Operand::Constant(Constant::Text(text)) => Ok(is_name_short(text)),
        Operand::Field(field) => is_field_short(alloc, field),
        Operand::Method(target) => is_call_short(alloc, op, target),
        Operand::New(name) => Ok(is_name_short(name)),
        Operand::Type(of) => is_ref_short(alloc, of),
        _ => Ok(true),
    }
}

fn is_row_short(row: &Catch) -> bool
    ensures { result ≡ list_all says_short (caught_needs row.now.class) }
{
    match &row.class {
        Some(class) => is_name_short(class),
        None => true,
    }
}

fn is_body_short(alloc: Global, line: &BodyLine) -> Result<bool, NoMemory>
    ensures { IfOk result (λ short. short ≡ list_all says_short (body_needs line.now)) }
{
    match line {
        BodyLine::Instr(op, operand) => is_operand_short(alloc, *op, operand),
        BodyLine::Catch(row) => Ok(is_row_short(row)),
        _ => Ok(true),
    }
}

/// Whether the texts of the line are short enough for a class file.
pub(crate) fn is_line_short(alloc: Global, line: &Line) -> Result<bool, NoMemory>
    ensures { IfOk result (λ short. short ≡ list_all says_short (line_needs line.now)) }
{
    match line {
        Line::Class(head) => {
            if !is_name_short(&head.name) {
                return Ok(false);
            }
            Ok(is_name_short(&head.parent))
        }
        Line::Implements(name) => Ok(is_name_short(name)),
        Line::Field(head) => {
            if !is_name_short(&head.name) {
                return Ok(false);
            }
            is_type_short(alloc, &head.kind)
        }
        Line::Method(head) => {
            if !is_name_short(&head.name) {
                return Ok(false);
            }
            is_method_short(alloc, &head.kind)
        }
        Line::Body(line) => is_body_short(alloc, line),
        Line::End => Ok(true),
    }
}
