//! The exact types that an object of an input may have.
ghost use Rattle.std.specs.Prelude.{◌≡◌, ◌↔◌, ◌∷◌, [], ◌++◌, ℕ, List, Some, map, IfOk, OnOk, IsTrue};
ghost use Rattle.std.specs.List.{AllByRecursion};
ghost use Rattle.std.specs.Option.{option_copied};
ghost use Rattle.kb_names.specs.Shape.{Base};
ghost use Rattle.kb_names.specs.Types.{shape_of, base_type, arrays_of};
ghost use Rattle.kb_names.specs.Descriptors.{base_text};
ghost use Rattle.kb_names.specs.declared.class_names.Spelling.TheVariants.{Raw};
ghost use Rattle.kb_names.specs.declared.types.JType.{JType};
ghost use Rattle.kb_names.specs.declared.types.ExactType.TheVariants as exact;
ghost use Rattle.kb_class.specs.Naming.{Has};
ghost use Rattle.kb_order.specs.Texts.{IsRising};
ghost use Rattle.kb_classes.specs.Universe.{is_concrete, IsElement, given_types, array_text, IsUniverse};
ghost use Rattle.kb_classes.specs.Mentions.{AddsTexts, AnyOf, IsTextGiven, IsWantedArray, IsPartOf, IsOwnPartOf, IsSimple, platform_types, own_parts, element_text};

use crate::classes::{Classes, shared_name};
use crate::literals::{place_in, push_text, set_of};
use crate::mentions::{exact_text, named_texts};
use kb_class::LoadedClass;
use kb_names::{Component, ExactType, JType, NoMemory, Row};
use kb_order::TextSet;
use std::alloc::Global;

/// ACC_INTERFACE and ACC_ABSTRACT (JVMS 8 table 4.1-A).
const NOT_CONCRETE: u16 = 0x0600;

/// The universe of these classes.
pub fn universe_of(alloc: Global, classes: &Classes) -> Result<Row<ExactType>, NoMemory>
    ensures { IfOk result (IsUniverse classes.now) }
{
    let named = named_set(alloc, classes.as_slice())?;
    let arrays = arrays_in(alloc, classes, &named)?;
    universe_with(alloc, classes, &named, &arrays)
}

// The universe of these classes, with the descriptors that given classes name and those of the arrays among them.
fn universe_with(
    alloc: Global,
    classes: &Classes,
    named: &TextSet,
    arrays: &TextSet,
) -> Result<Row<ExactType>, NoMemory>
    requires { IsRising named.now × IsRising arrays.now × ((text : List ℕ) → Has named.now text ↔ AnyOf IsTextGiven classes.now text) × ((text : List ℕ) → Has arrays.now text ↔ AnyOf (IsPartOf classes.now) named.now text) }
    ensures { IfOk result (IsUniverse classes.now) }
{
    let mut universe = Row::new(alloc);
    push_given(alloc, classes.as_slice(), &mut universe)?;
    push_platform(alloc, classes.as_slice(), named, &mut universe)?;
    push_arrays(alloc, classes, arrays.as_slice(), &mut universe)?;
    Ok(universe)
}

// The descriptors of the types that given classes name.
fn named_set(alloc: Global, classes: &[LoadedClass]) -> Result<TextSet, NoMemory>
    ensures rises { IfOk result IsRising }
    ensures same { IfOk result (λ set. (text : List ℕ) → Has set text ↔ AnyOf IsTextGiven classes.now text) }
{
    let texts = named_texts(alloc, classes)?;
    set_of(alloc, texts)
}

// ---- classes

fn push_given(
    alloc: Global,
    classes: &[LoadedClass],
    universe: &mut Row<ExactType>,
) -> Result<(), NoMemory>
    ensures { OnOk result (universe.new ≡ universe.old ++ given_types classes.now) }
{
    let mut rest = classes;
    while let [class, others @ ..] = rest {
        push_if_given(alloc, class, universe)?;
        rest = others;
    }
    Ok(())
}

fn push_if_given(
    alloc: Global,
    class: &LoadedClass,
    universe: &mut Row<ExactType>,
) -> Result<(), NoMemory>
    ensures { OnOk result (universe.new ≡ universe.old ++ given_types (class.now ∷ [])) }
{
    if class.file().is_none() {
        return Ok(());
    }
    if !is_concrete(class) {
        return Ok(());
    }
    push_class(alloc, class, universe)
}

// The platform classes of which the set has the descriptor.
fn push_platform(
    alloc: Global,
    classes: &[LoadedClass],
    named: &TextSet,
    universe: &mut Row<ExactType>,
) -> Result<(), NoMemory>
    requires { IsRising named.now }
    ensures { OnOk result (universe.new ≡ universe.old ++ platform_types named.now classes.now) }
{
    let mut rest = classes;
    while let [class, others @ ..] = rest {
        push_if_named(alloc, class, named, universe)?;
        rest = others;
    }
    Ok(())
}

fn push_if_named(
    alloc: Global,
    class: &LoadedClass,
    named: &TextSet,
    universe: &mut Row<ExactType>,
) -> Result<(), NoMemory>
    requires { IsRising named.now }
    ensures { OnOk result (universe.new ≡ universe.old ++ platform_types named.now (class.now ∷ [])) }
{
    if class.file().is_some() {
        return Ok(());
    }
    if !is_concrete(class) {
        return Ok(());
    }
    let text = exact_text(alloc, &ExactType::Class(class.name().copied(alloc)?))?;
    if place_in(named, text.as_slice()).is_none() {
        return Ok(());
    }
    push_class(alloc, class, universe)
}

/// Whether it is neither an interface nor abstract.
pub fn is_concrete(class: &LoadedClass) -> bool
    ensures { result ≡ is_concrete class.now }
{
    class.access() & NOT_CONCRETE == 0
}

fn push_class(
    alloc: Global,
    class: &LoadedClass,
    universe: &mut Row<ExactType>,
) -> Result<(), NoMemory>
    ensures { OnOk result (universe.new ≡ universe.old ++ exact.Class class.now.name ∷ []) }
{
    let of = ExactType::Class(class.name().copied(alloc)?);
    universe.push(of)?;
    Ok(())
}

// ---- arrays

// The descriptors of the arrays among these types whose elements may be ones, and of their component arrays.
fn arrays_in(alloc: Global, classes: &Classes, named: &TextSet) -> Result<TextSet, NoMemory>
    ensures rises { IfOk result IsRising }
    ensures same { IfOk result (λ set. (text : List ℕ) → Has set text ↔ AnyOf (IsPartOf classes.now) named.now text) }
{
    let texts = parts_in(alloc, classes, named, named.as_slice())?;
    set_of(alloc, texts)
}

// The descriptors of the arrays among these texts whose elements may be ones, and of their component arrays, each up to the
// first component that is in the set. So no array of the set is added twice, nor a component of it.
fn parts_in(
    alloc: Global,
    classes: &Classes,
    named: &TextSet,
    wholes: &[Row<u8>],
) -> Result<Vec<Row<u8>>, NoMemory>
    requires { IsRising named.now }
    ensures { IfOk result (λ texts. AddsTexts [] texts.items (AnyOf (IsOwnPartOf classes.now named.now) wholes.now)) }
{
    let mut texts = Vec::new(alloc);
    let mut rest = wholes;
    while let [whole, others @ ..] = rest {
        push_wanted(alloc, classes, named, whole.as_slice(), &mut texts)?;
        rest = others;
    }
    Ok(texts)
}

fn push_wanted(
    alloc: Global,
    classes: &Classes,
    named: &TextSet,
    whole: &[u8],
    texts: &mut Vec<Row<u8>>,
) -> Result<(), NoMemory>
    requires { IsRising named.now }
    ensures { OnOk result (AddsTexts texts.old.items texts.new.items (IsOwnPartOf classes.now named.now whole.now)) }
{
    if !is_wanted(classes, whole) {
        return Ok(());
    }
    push_parts(alloc, named, whole, texts)
}

// Adds the descriptor of an array and those of its component arrays, the longest first, up to the first that is in the set.
fn push_parts(
    alloc: Global,
    named: &TextSet,
    whole: &[u8],
    texts: &mut Vec<Row<u8>>,
) -> Result<(), NoMemory>
    requires { IsRising named.now }
    ensures { OnOk result (texts.new.items ≡ texts.old.items ++ own_parts named.now whole.now) }
{
    let mut rest = whole;
    while let [first, others @ ..] = rest {
        if *first != b'[' {
            return Ok(());
        }
        push_text(alloc, rest, texts)?;
        if place_in(named, others).is_some() {
            return Ok(());
        }
        rest = others;
    }
    Ok(())
}

// Whether the text is the descriptor of an array whose element may be one.
fn is_wanted(classes: &Classes, text: &[u8]) -> bool
    ensures { IsTrue result ↔ IsWantedArray classes.now text.now }
{
    let element = element_of(text);
    if element.len() == text.len() {
        return false;
    }
    is_element(classes, element)
}

// Whether the descriptor is one of an element.
fn is_element(classes: &Classes, text: &[u8]) -> bool
    ensures { IsTrue result ↔ ((base : Base) × IsElement classes.now base × (text.now ≡ base_text Raw base)) }
{
    if is_letter(text, b'Z') {
        return true;
    }
    if is_letter(text, b'I') {
        return true;
    }
    match name_in(text) {
        Some(name) => classes.number_of(name).is_some(),
        None => false,
    }
}

// What stands behind each [ that the text begins with.
fn element_of(text: &[u8]) -> &[u8]
    ensures { result.now ≡ element_text text.now }
{
    let mut rest = text;
    while let [first, others @ ..] = rest {
        if *first != b'[' {
            return rest;
        }
        rest = others;
    }
    rest
}

// Whether the text is that letter.
fn is_letter(text: &[u8], letter: u8) -> bool
    ensures { IsTrue result ↔ (text.now ≡ letter ∷ []) }
{
    match text {
        [one] => *one == letter,
        _ => false,
    }
}

// The name in the descriptor of a class.
fn name_in(text: &[u8]) -> Option<&[u8]>
    ensures { (name : List ℕ) → (option_copied result ≡ Some name) ↔ (text.now ≡ 76 ∷ (name ++ 59 ∷ [])) }
{
    match text {
        [b'L', name @ .., b';'] => Some(name),
        _ => None,
    }
}

// Adds the arrays with these descriptors.
fn push_arrays(
    alloc: Global,
    classes: &Classes,
    arrays: &[Row<u8>],
    universe: &mut Row<ExactType>,
) -> Result<(), NoMemory>
    ensures { OnOk result ((components : List JType) → AllByRecursion (λ component. IsSimple (shape_of component).base) components → map array_text components ≡ arrays.now
        → universe.new ≡ universe.old ++ map exact.Array components) }
{
    let mut rest = arrays;
    while let [text, others @ ..] = rest {
        let component = component_of(alloc, classes, text.as_slice())?;
        universe.push(ExactType::Array(component))?;
        rest = others;
    }
    Ok(())
}

// The component of an array with that descriptor, whose element is a boolean, an int or a class.
fn component_of(alloc: Global, classes: &Classes, text: &[u8]) -> Result<JType, NoMemory>
    ensures { IfOk result (λ type. (component : JType) → IsSimple (shape_of component).base → text.now ≡ array_text component → type ≡ component) }
{
    let element = element_of(text);
    let base = element_type(alloc, classes, element)?;
    let dims = text.len().saturating_sub(element.len());
    with_dims(alloc, base, dims.saturating_sub(1))
}

// The type of an element that is a boolean, an int or a class.
fn element_type(alloc: Global, classes: &Classes, text: &[u8]) -> Result<JType, NoMemory>
    ensures { IfOk result (λ type. (base : Base) → IsSimple base → text.now ≡ base_text Raw base → type ≡ base_type base) }
{
    if is_letter(text, b'I') {
        return Ok(JType::Int);
    }
    match name_in(text) {
        Some(name) => Ok(JType::Class(shared_name(alloc, classes, name)?)),
        None => Ok(JType::Bool),
    }
}

// The array of so many dimensions over a type.
fn with_dims(alloc: Global, base: JType, dims: usize) -> Result<JType, NoMemory>
    ensures { IfOk result (λ type. (of : Base) → base ≡ base_type of → type ≡ arrays_of dims of) }
{
    let mut of = base;
    for _ in 0..dims {
        of = JType::Array(Component::new(alloc, of)?);
    }
    Ok(of)
}
