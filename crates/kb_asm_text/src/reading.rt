//! Lines are read.

ghost use Rattle.std.specs.Prelude.{IfOk};
ghost use Rattle.kb_asm_text.specs.Words.{IsReadAs};
ghost use Rattle.kb_grammar.specs.Lines.{IsRead};
ghost use Rattle.kb_asm_text.specs.Lines.{keyword_of, SpellsBehind, SpellsLine};
ghost use Rattle.kb_asm_text.specs.declared.keyword.Keyword.TheVariants as keywords;

use crate::NoMemory;
use crate::heads::{read_catch, read_class, read_field, read_method};
use crate::keyword::{Keyword, keyword_of};
use crate::line::{BodyLine, Line};
use crate::names::{read_label, read_text};
use crate::operands::read_operand;
use crate::shape::{op_of, shape_at};
use crate::tokens::read_byte_hex;
use crate::words::{first_word, one_word, words_of};
use kb_grammar::behind;
use kb_rows::Row;
use std::alloc::Global;

fn class_line(alloc: Global, first: &[u8], words: &[Row<u8>]) -> Result<Option<Line>, NoMemory>
    ensures { IfOk result (IsReadAs (λ line. SpellsBehind keywords.Class line first.now) words.now) }
{
    match read_class(alloc, words)? {
        Some(head) => Ok(Some(Line::Class(head))),
        None => Ok(None),
    }
}

fn implements_line(alloc: Global, first: &[u8], words: &[Row<u8>]) -> Result<Option<Line>, NoMemory>
    ensures { IfOk result (IsReadAs (λ line. SpellsBehind keywords.Implements line first.now) words.now) }
{
    let Some(word) = one_word(words) else {
        return Ok(None);
    };
    match read_text(alloc, word)? {
        Some(name) => Ok(Some(Line::Implements(name))),
        None => Ok(None),
    }
}

fn field_line(alloc: Global, first: &[u8], words: &[Row<u8>]) -> Result<Option<Line>, NoMemory>
    ensures { IfOk result (IsReadAs (λ line. SpellsBehind keywords.Field line first.now) words.now) }
{
    match read_field(alloc, words)? {
        Some(head) => Ok(Some(Line::Field(head))),
        None => Ok(None),
    }
}

fn method_line(alloc: Global, first: &[u8], words: &[Row<u8>]) -> Result<Option<Line>, NoMemory>
    ensures { IfOk result (IsReadAs (λ line. SpellsBehind keywords.Method line first.now) words.now) }
{
    match read_method(alloc, words)? {
        Some(head) => Ok(Some(Line::Method(head))),
        None => Ok(None),
    }
}

fn end_line(first: &[u8], words: &[Row<u8>]) -> Option<Line>
    ensures { IsReadAs (λ line. SpellsBehind keywords.End line first.now) words.now result }
{
    if !words.is_empty() {
        return None;
    }
    Some(Line::End)
}

fn raw_line(first: &[u8], words: &[Row<u8>]) -> Option<Line>
    ensures { IsReadAs (λ line. SpellsBehind keywords.Raw line first.now) words.now result }
{
    let byte = read_byte_hex(one_word(words)?)?;
    Some(Line::Body(BodyLine::Raw(byte)))
}

fn catch_line(alloc: Global, first: &[u8], words: &[Row<u8>]) -> Result<Option<Line>, NoMemory>
    ensures { IfOk result (IsReadAs (λ line. SpellsBehind keywords.Catch line first.now) words.now) }
{
    match read_catch(alloc, words)? {
        Some(row) => Ok(Some(Line::Body(BodyLine::Catch(row)))),
        None => Ok(None),
    }
}

fn label_line(alloc: Global, first: &[u8], words: &[Row<u8>]) -> Result<Option<Line>, NoMemory>
    ensures { IfOk result (IsReadAs (λ line. SpellsBehind keywords.Label line first.now) words.now) }
{
    if !words.is_empty() {
        return Ok(None);
    }
    let Some(word) = behind(first, b":") else {
        return Ok(None);
    };
    match read_label(alloc, word)? {
        Some(label) => Ok(Some(Line::Body(BodyLine::Label(label)))),
        None => Ok(None),
    }
}

fn instr_line(alloc: Global, first: &[u8], words: &[Row<u8>]) -> Result<Option<Line>, NoMemory>
    ensures { IfOk result (IsReadAs (λ line. SpellsBehind keywords.Other line first.now) words.now) }
{
    let Some(op) = op_of(first) else {
        return Ok(None);
    };
    match read_operand(alloc, shape_at(op), words)? {
        Some(operand) => Ok(Some(Line::Body(BodyLine::Instr(op, operand)))),
        None => Ok(None),
    }
}

/// The line that begins with that word, with the words behind it.
fn read_behind(alloc: Global, first: &[u8], words: &[Row<u8>]) -> Result<Option<Line>, NoMemory>
    ensures { IfOk result (IsReadAs (λ line. SpellsBehind (keyword_of first.now) line first.now) words.now) }
{
    match keyword_of(first) {
        Keyword::Class => class_line(alloc, first, words),
        Keyword::Implements => implements_line(alloc, first, words),
        Keyword::Field => field_line(alloc, first, words),
        Keyword::Method => method_line(alloc, first, words),
        Keyword::End => Ok(end_line(first, words)),
        Keyword::Raw => Ok(raw_line(first, words)),
        Keyword::Catch => catch_line(alloc, first, words),
        Keyword::Label => label_line(alloc, first, words),
        Keyword::Other => instr_line(alloc, first, words),
    }
}

/// The line that the text spells. It has no line feed behind it.
pub fn read_line(alloc: Global, text: &[u8]) -> Result<Option<Line>, NoMemory>
    ensures { IfOk result (IsRead SpellsLine text.now) }
{
    let words = words_of(alloc, text)?;
    let Some((first, others)) = first_word(words.as_slice()) else {
        return Ok(None);
    };
    read_behind(alloc, first, others)
}
