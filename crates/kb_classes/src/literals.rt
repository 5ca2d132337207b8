//! The texts of string constants.
ghost use Rattle.std.specs.Prelude.{◌≡◌, ◌↔◌, ◌∷◌, [], ◌++◌, ℕ, List, IfOk, OnOk};
ghost use Rattle.kb_class.specs.Naming.{Has};
ghost use Rattle.kb_order.specs.Texts.{IsRising};
ghost use Rattle.kb_classes.specs.World.{literal_in};
ghost use Rattle.kb_classes.specs.Universe.{AreLiterals};
ghost use Rattle.kb_classes.specs.Mentions.{AddsTexts, AnyOf, HasLiteral, IsFoundText};

use crate::classes::Classes;
use crate::mentions::push_row;
use kb_class::LoadedClass;
use kb_names::{NoMemory, Row};
use kb_order::{TextSet, ordered_set};
use std::alloc::Global;

/// The texts of the string constants of all classes, in order.
pub fn literals_of(alloc: Global, classes: &Classes) -> Result<TextSet, NoMemory>
    ensures { IfOk result (AreLiterals classes.now) }
{
    let texts = texts_of(alloc, classes.as_slice())?;
    set_of(alloc, texts)
}

/// The place of a text among literals.
pub fn place_in(literals: &TextSet, text: &[u8]) -> Option<u32>
    requires { IsRising literals.now }
    ensures { result ≡ literal_in literals.now text.now }
{
    literals.place_of(text)
}

/// The texts in order, each once.
pub(crate) fn set_of(alloc: Global, texts: Vec<Row<u8>>) -> Result<TextSet, NoMemory>
    ensures rises { IfOk result IsRising }
    ensures same { IfOk result (λ set. (text : List ℕ) → Has set text ↔ Has texts.items text) }
{
    match ordered_set(alloc, texts) {
        Ok(set) => Ok(set),
        Err(_) => Err(NoMemory),
    }
}

// The texts of the string constants, class by class.
fn texts_of(alloc: Global, classes: &[LoadedClass]) -> Result<Vec<Row<u8>>, NoMemory>
    ensures { IfOk result (λ texts. AddsTexts [] texts.items (AnyOf HasLiteral classes.now)) }
{
    let mut texts = Vec::new(alloc);
    let mut rest = classes;
    while let [class, others @ ..] = rest {
        push_texts(alloc, class, &mut texts)?;
        rest = others;
    }
    Ok(texts)
}

// Adds the texts of the string constants of a class: that of a Utf8 entry once, however many of them have it.
fn push_texts(alloc: Global, class: &LoadedClass, texts: &mut Vec<Row<u8>>) -> Result<(), NoMemory>
    ensures { OnOk result (AddsTexts texts.old.items texts.new.items (HasLiteral class.now)) }
{
    let literals = class.literals(alloc)?;
    push_literals(literals.into_vec(), texts)
}

fn push_literals(literals: Vec<Option<Row<u8>>>, texts: &mut Vec<Row<u8>>) -> Result<(), NoMemory>
    ensures { OnOk result (AddsTexts texts.old.items texts.new.items (AnyOf IsFoundText literals.items)) }
{
    for literal in literals {
        push_literal(literal, texts)?;
    }
    Ok(())
}

// Adds a text, if there is one.
fn push_literal(literal: Option<Row<u8>>, texts: &mut Vec<Row<u8>>) -> Result<(), NoMemory>
    ensures { OnOk result (AddsTexts texts.old.items texts.new.items (IsFoundText literal)) }
{
    match literal {
        Some(text) => push_row(text, texts),
        None => Ok(()),
    }
}

/// Adds a copy of a text.
pub(crate) fn push_text(
    alloc: Global,
    text: &[u8],
    texts: &mut Vec<Row<u8>>,
) -> Result<(), NoMemory>
    ensures { OnOk result (texts.new.items ≡ texts.old.items ++ text.now ∷ []) }
{
    let copy = text.to_vec(alloc)?;
    push_row(Row::from_vec(copy), texts)
}
