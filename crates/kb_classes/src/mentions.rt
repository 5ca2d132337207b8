//! The types that classes name, each by its descriptor.
ghost use Rattle.std.specs.Prelude.{◌≡◌, ◌∷◌, [], ◌++◌, Some, IfOk, OnOk};
ghost use Rattle.kb_names.specs.Descriptors.{type_text};
ghost use Rattle.kb_names.specs.declared.class_names.Spelling.TheVariants.{Raw};
ghost use Rattle.kb_classes.specs.Mentions.{AddsTexts, AnyOf, exact_text, IsTextOf, IsTextHeld, IsTextOfMethod, IsTextOfKind, IsTextNamed, IsTextGiven};

use kb_class::{LoadedClass, MemberKind};
use kb_names::{ExactType, JType, MethodType, NoMemory, Row, Spelling, write_type};
use std::alloc::Global;

/// The descriptors of the types that given classes name, in the order of mention.
pub(crate) fn named_texts(alloc: Global, classes: &[LoadedClass]) -> Result<Vec<Row<u8>>, NoMemory>
    ensures { IfOk result (λ texts. AddsTexts [] texts.items (AnyOf IsTextGiven classes.now)) }
{
    let mut texts = Vec::new(alloc);
    let mut rest = classes;
    while let [class, others @ ..] = rest {
        push_given(alloc, class, &mut texts)?;
        rest = others;
    }
    Ok(texts)
}

// Adds those of the types that a class names, if it is given.
fn push_given(alloc: Global, class: &LoadedClass, texts: &mut Vec<Row<u8>>) -> Result<(), NoMemory>
    ensures { OnOk result (AddsTexts texts.old.items texts.new.items (IsTextGiven class.now)) }
{
    match class.file() {
        Some(_) => push_named(alloc, class, texts),
        None => Ok(()),
    }
}

// Adds those of the types that a class names.
fn push_named(alloc: Global, class: &LoadedClass, texts: &mut Vec<Row<u8>>) -> Result<(), NoMemory>
    ensures { OnOk result (AddsTexts texts.old.items texts.new.items (IsTextNamed class.now)) }
{
    push_types(alloc, class.named_types(), texts)?;
    push_kinds(alloc, class.named_kinds(), texts)
}

fn push_types(
    alloc: Global,
    types: &[Option<ExactType>],
    texts: &mut Vec<Row<u8>>,
) -> Result<(), NoMemory>
    ensures { OnOk result (AddsTexts texts.old.items texts.new.items (AnyOf IsTextOf types.now)) }
{
    let mut rest = types;
    while let [of, others @ ..] = rest {
        push_exact(alloc, of, texts)?;
        rest = others;
    }
    Ok(())
}

// Adds the descriptor of what an object is, if it is told.
fn push_exact(
    alloc: Global,
    of: &Option<ExactType>,
    texts: &mut Vec<Row<u8>>,
) -> Result<(), NoMemory>
    ensures { OnOk result (AddsTexts texts.old.items texts.new.items (IsTextOf of.now)) }
{
    match of {
        Some(of) => push_row(exact_text(alloc, of)?, texts),
        None => Ok(()),
    }
}

fn push_kinds(
    alloc: Global,
    kinds: &[Option<MemberKind>],
    texts: &mut Vec<Row<u8>>,
) -> Result<(), NoMemory>
    ensures { OnOk result (AddsTexts texts.old.items texts.new.items (AnyOf IsTextOfKind kinds.now)) }
{
    let mut rest = kinds;
    while let [kind, others @ ..] = rest {
        push_kind(alloc, kind, texts)?;
        rest = others;
    }
    Ok(())
}

// Adds the descriptors of the types that one of a field or method holds, if it is told.
fn push_kind(
    alloc: Global,
    kind: &Option<MemberKind>,
    texts: &mut Vec<Row<u8>>,
) -> Result<(), NoMemory>
    ensures { OnOk result (AddsTexts texts.old.items texts.new.items (IsTextOfKind kind.now)) }
{
    match kind {
        Some(kind) => push_told(alloc, kind, texts),
        None => Ok(()),
    }
}

fn push_told(alloc: Global, kind: &MemberKind, texts: &mut Vec<Row<u8>>) -> Result<(), NoMemory>
    ensures { OnOk result (AddsTexts texts.old.items texts.new.items (IsTextOfKind (Some kind.now))) }
{
    match kind {
        MemberKind::Field(of) => push_held(alloc, of, texts),
        MemberKind::Method(of) => push_method(alloc, of, texts),
    }
}

fn push_method(alloc: Global, of: &MethodType, texts: &mut Vec<Row<u8>>) -> Result<(), NoMemory>
    ensures { OnOk result (AddsTexts texts.old.items texts.new.items (IsTextOfMethod of.now)) }
{
    push_params(alloc, of.params.as_slice(), texts)?;
    match &of.result {
        Some(returned) => push_held(alloc, returned, texts),
        None => Ok(()),
    }
}

fn push_params(alloc: Global, params: &[JType], texts: &mut Vec<Row<u8>>) -> Result<(), NoMemory>
    ensures { OnOk result (AddsTexts texts.old.items texts.new.items (AnyOf IsTextHeld params.now)) }
{
    let mut rest = params;
    while let [of, others @ ..] = rest {
        push_held(alloc, of, texts)?;
        rest = others;
    }
    Ok(())
}

// Adds the descriptor of a type that an object can be of.
fn push_held(alloc: Global, of: &JType, texts: &mut Vec<Row<u8>>) -> Result<(), NoMemory>
    ensures { OnOk result (AddsTexts texts.old.items texts.new.items (IsTextHeld of.now)) }
{
    match of {
        JType::Class(_) => push_type(alloc, of, texts),
        JType::Array(_) => push_type(alloc, of, texts),
        _ => Ok(()),
    }
}

fn push_type(alloc: Global, of: &JType, texts: &mut Vec<Row<u8>>) -> Result<(), NoMemory>
    ensures { OnOk result (texts.new.items ≡ texts.old.items ++ type_text Raw of.now ∷ []) }
{
    push_row(type_text(alloc, of)?, texts)
}

/// The descriptor of what an object is.
pub(crate) fn exact_text(alloc: Global, of: &ExactType) -> Result<Row<u8>, NoMemory>
    ensures { IfOk result (λ text. text ≡ exact_text of.now) }
{
    match of {
        ExactType::Class(name) => type_text(alloc, &JType::Class(name.copied(alloc)?)),
        ExactType::Array(component) => array_text(alloc, component),
    }
}

fn array_text(alloc: Global, component: &JType) -> Result<Row<u8>, NoMemory>
    ensures { IfOk result (λ text. text ≡ 91 ∷ type_text Raw component.now) }
{
    let mut text = Vec::new(alloc);
    text.push(b'[')?;
    write_type(component, Spelling::Raw, &mut text)?;
    Ok(Row::from_vec(text))
}

fn type_text(alloc: Global, of: &JType) -> Result<Row<u8>, NoMemory>
    ensures { IfOk result (λ text. text ≡ type_text Raw of.now) }
{
    let mut text = Vec::new(alloc);
    write_type(of, Spelling::Raw, &mut text)?;
    Ok(Row::from_vec(text))
}

/// Adds a text.
pub(crate) fn push_row(text: Row<u8>, texts: &mut Vec<Row<u8>>) -> Result<(), NoMemory>
    ensures { OnOk result (texts.new.items ≡ texts.old.items ++ text ∷ []) }
{
    match texts.push(text) {
        Ok(()) => Ok(()),
        Err(_) => Err(NoMemory),
    }
}
