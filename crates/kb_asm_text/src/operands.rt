//! What stands behind a mnemonic.

ghost use Rattle.std.specs.Prelude.{IfOk};
ghost use Rattle.kb_asm_text.specs.Words.{IsReadAs};
ghost use Rattle.kb_asm_text.specs.Lines.{SpellsConstant, SpellsFieldName, SpellsMethodName, SpellsOperand};

use crate::NoMemory;
use crate::line::{Constant, FieldName, Operand};
use crate::names::{read_class_ref, read_label, read_method_type, read_text, read_type};
use crate::shape::Shape;
use crate::switches::{lookup_operand, table_operand};
use crate::tokens::{read_byte_int, read_short_int};
use crate::words::{one_word, three_words, two_words};
use kb_grammar::{is_line, number_within, read_int};
use kb_names::Target;
use kb_rows::Row;
use std::alloc::Global;

fn alone(words: &[Row<u8>]) -> Option<Operand>
    ensures { IsReadAs (SpellsOperand Shape.Alone) words.now result }
{
    if !words.is_empty() {
        return None;
    }
    Some(Operand::Alone)
}

fn byte_operand(words: &[Row<u8>]) -> Option<Operand>
    ensures { IsReadAs (SpellsOperand Shape.Byte) words.now result }
{
    let number = read_byte_int(one_word(words)?)?;
    Some(Operand::Byte(number))
}

fn short_operand(words: &[Row<u8>]) -> Option<Operand>
    ensures { IsReadAs (SpellsOperand Shape.Short) words.now result }
{
    let number = read_short_int(one_word(words)?)?;
    Some(Operand::Short(number))
}

fn local_operand(words: &[Row<u8>]) -> Option<Operand>
    ensures { IsReadAs (SpellsOperand Shape.Local) words.now result }
{
    let number = number_within(one_word(words)?, 65_535)?;
    Some(Operand::Local(number as u16))
}

fn increment(words: &[Row<u8>]) -> Option<Operand>
    ensures { IsReadAs (SpellsOperand Shape.Increment) words.now result }
{
    let (local, constant) = two_words(words)?;
    let local = number_within(local, 255)?;
    let constant = read_byte_int(constant)?;
    Some(Operand::Increment(local as u8, constant))
}

fn primitive(words: &[Row<u8>]) -> Option<Operand>
    ensures { IsReadAs (SpellsOperand Shape.Primitive) words.now result }
{
    let number = number_within(one_word(words)?, 255)?;
    Some(Operand::Primitive(number as u8))
}

/// The constant that the words spell.
fn read_constant(alloc: Global, words: &[Row<u8>]) -> Result<Option<Constant>, NoMemory>
    ensures { IfOk result (IsReadAs SpellsConstant words.now) }
{
    let Some((kind, word)) = two_words(words) else {
        return Ok(None);
    };
    if is_line(kind, b"int") {
        return match read_int(word) {
            Some(number) => Ok(Some(Constant::Int(number))),
            None => Ok(None),
        };
    }
    if !is_line(kind, b"str") {
        return Ok(None);
    }
    match read_text(alloc, word)? {
        Some(text) => Ok(Some(Constant::Text(text))),
        None => Ok(None),
    }
}

/// The field that the words name.
fn read_field_name(alloc: Global, words: &[Row<u8>]) -> Result<Option<FieldName>, NoMemory>
    ensures { IfOk result (IsReadAs SpellsFieldName words.now) }
{
    let Some((class, name, kind)) = three_words(words) else {
        return Ok(None);
    };
    let Some(class) = read_text(alloc, class)? else {
        return Ok(None);
    };
    let Some(name) = read_text(alloc, name)? else {
        return Ok(None);
    };
    let Some(kind) = read_type(alloc, kind)? else {
        return Ok(None);
    };
    Ok(Some(FieldName { class, name, kind }))
}

/// The method that the words name.
fn read_method_name(alloc: Global, words: &[Row<u8>]) -> Result<Option<Target>, NoMemory>
    ensures { IfOk result (IsReadAs SpellsMethodName words.now) }
{
    let Some((class, name, kind)) = three_words(words) else {
        return Ok(None);
    };
    let Some(class) = read_text(alloc, class)? else {
        return Ok(None);
    };
    let Some(name) = read_text(alloc, name)? else {
        return Ok(None);
    };
    let Some(kind) = read_method_type(alloc, kind)? else {
        return Ok(None);
    };
    Ok(Some(Target { class, name, kind }))
}

fn constant(alloc: Global, words: &[Row<u8>]) -> Result<Option<Operand>, NoMemory>
    ensures { IfOk result (IsReadAs (SpellsOperand Shape.Constant) words.now) }
{
    match read_constant(alloc, words)? {
        Some(of) => Ok(Some(Operand::Constant(of))),
        None => Ok(None),
    }
}

fn field(alloc: Global, words: &[Row<u8>]) -> Result<Option<Operand>, NoMemory>
    ensures { IfOk result (IsReadAs (SpellsOperand Shape.Field) words.now) }
{
    match read_field_name(alloc, words)? {
        Some(of) => Ok(Some(Operand::Field(of))),
        None => Ok(None),
    }
}

fn method(alloc: Global, words: &[Row<u8>]) -> Result<Option<Operand>, NoMemory>
    ensures { IfOk result (IsReadAs (SpellsOperand Shape.Method) words.now) }
{
    match read_method_name(alloc, words)? {
        Some(of) => Ok(Some(Operand::Method(of))),
        None => Ok(None),
    }
}

fn new_class(alloc: Global, words: &[Row<u8>]) -> Result<Option<Operand>, NoMemory>
    ensures { IfOk result (IsReadAs (SpellsOperand Shape.New) words.now) }
{
    let Some(word) = one_word(words) else {
        return Ok(None);
    };
    match read_text(alloc, word)? {
        Some(name) => Ok(Some(Operand::New(name))),
        None => Ok(None),
    }
}

fn class_ref(alloc: Global, words: &[Row<u8>]) -> Result<Option<Operand>, NoMemory>
    ensures { IfOk result (IsReadAs (SpellsOperand Shape.Type) words.now) }
{
    let Some(word) = one_word(words) else {
        return Ok(None);
    };
    match read_class_ref(alloc, word)? {
        Some(of) => Ok(Some(Operand::Type(of))),
        None => Ok(None),
    }
}

fn target(alloc: Global, words: &[Row<u8>]) -> Result<Option<Operand>, NoMemory>
    ensures { IfOk result (IsReadAs (SpellsOperand Shape.Branch) words.now) }
{
    let Some(word) = one_word(words) else {
        return Ok(None);
    };
    match read_label(alloc, word)? {
        Some(label) => Ok(Some(Operand::Target(label))),
        None => Ok(None),
    }
}

/// What the words spell behind a mnemonic of that kind.
pub(crate) fn read_operand(
    alloc: Global,
    shape: Shape,
    words: &[Row<u8>],
) -> Result<Option<Operand>, NoMemory>
    ensures { IfOk result (IsReadAs (SpellsOperand shape) words.now) }
{
    match shape {
        Shape::Unwritten => Ok(None),
        Shape::Alone => Ok(alone(words)),
        Shape::Byte => Ok(byte_operand(words)),
        Shape::Short => Ok(short_operand(words)),
        Shape::Constant => constant(alloc, words),
        Shape::Local => Ok(local_operand(words)),
        Shape::Increment => Ok(increment(words)),
        Shape::Field => field(alloc, words),
        Shape::Method => method(alloc, words),
        Shape::New => new_class(alloc, words),
        Shape::Type => class_ref(alloc, words),
        Shape::Primitive => Ok(primitive(words)),
        Shape::Branch => target(alloc, words),
        Shape::Table => table_operand(alloc, words),
        Shape::Lookup => lookup_operand(alloc, words),
    }
}
