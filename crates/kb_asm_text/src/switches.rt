//! What stands behind the mnemonics of switches.

ghost use Rattle.std.specs.Prelude.{IfOk};
ghost use Rattle.kb_grammar.specs.Lines.{IsRead};
ghost use Rattle.kb_asm_text.specs.Words.{EachWord, IsReadAs};
ghost use Rattle.kb_asm_text.specs.Tokens.{SpellsLabel};
ghost use Rattle.kb_asm_text.specs.Lines.{key_of_case, SpellsCase, SpellsOperand};

use crate::NoMemory;
use crate::line::{Case, Operand};
use crate::names::read_label;
use crate::shape::Shape;
use crate::words::first_word;
use kb_code::{Keyed, are_rising, is_table};
use kb_grammar::{cut, read_int};
use kb_names::Name;
use kb_rows::Row;
use std::alloc::Global;

impl Keyed for Case {
    ghost key_of = { key_of_case };

    fn key(&self) -> i32 {
        self.key
    }
}

/// The labels that the words spell.
fn read_labels(alloc: Global, words: &[Row<u8>]) -> Result<Option<Row<Name>>, NoMemory>
    ensures { IfOk result (IsReadAs (EachWord SpellsLabel) words.now) }
{
    let mut labels = Row::new(alloc);
    let mut rest = words;
    while let Some((first, others)) = first_word(rest) {
        match read_label(alloc, first)? {
            Some(label) => labels.push(label)?,
            None => return Ok(None),
        }
        rest = others;
    }
    Ok(Some(labels))
}

/// The int and the label that the word spells.
fn read_case(alloc: Global, word: &[u8]) -> Result<Option<Case>, NoMemory>
    ensures { IfOk result (IsRead SpellsCase word.now) }
{
    let Some((key, target)) = cut(word, b':') else {
        return Ok(None);
    };
    let Some(key) = read_int(key) else {
        return Ok(None);
    };
    match read_label(alloc, target)? {
        Some(target) => Ok(Some(Case { key, target })),
        None => Ok(None),
    }
}

/// The ints and the labels that the words spell.
fn read_cases(alloc: Global, words: &[Row<u8>]) -> Result<Option<Row<Case>>, NoMemory>
    ensures { IfOk result (IsReadAs (EachWord SpellsCase) words.now) }
{
    let mut cases = Row::new(alloc);
    let mut rest = words;
    while let Some((first, others)) = first_word(rest) {
        match read_case(alloc, first)? {
            Some(case) => cases.push(case)?,
            None => return Ok(None),
        }
        rest = others;
    }
    Ok(Some(cases))
}

/// The operands of a tableswitch.
pub(crate) fn table_operand(alloc: Global, words: &[Row<u8>]) -> Result<Option<Operand>, NoMemory>
    ensures { IfOk result (IsReadAs (SpellsOperand Shape.Table) words.now) }
{
    let Some((first, others)) = first_word(words) else {
        return Ok(None);
    };
    let Some((second, rest)) = first_word(others) else {
        return Ok(None);
    };
    let Some(low) = read_int(first) else {
        return Ok(None);
    };
    let Some(default) = read_label(alloc, second)? else {
        return Ok(None);
    };
    let Some(targets) = read_labels(alloc, rest)? else {
        return Ok(None);
    };
    if !is_table(low, targets.as_slice().len()) {
        return Ok(None);
    }
    Ok(Some(Operand::Table(low, default, targets)))
}

/// The operands of a lookupswitch.
pub(crate) fn lookup_operand(alloc: Global, words: &[Row<u8>]) -> Result<Option<Operand>, NoMemory>
    ensures { IfOk result (IsReadAs (SpellsOperand Shape.Lookup) words.now) }
{
    let Some((first, others)) = first_word(words) else {
        return Ok(None);
    };
    let Some(default) = read_label(alloc, first)? else {
        return Ok(None);
    };
    let Some(cases) = read_cases(alloc, others)? else {
        return Ok(None);
    };
    if !are_rising(cases.as_slice()) {
        return Ok(None);
    }
    Ok(Some(Operand::Lookup(default, cases)))
}
