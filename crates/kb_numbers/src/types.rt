//! The types of methods by their parts, so that the number of a type's descriptor is found without writing it.
ghost use Rattle.std.specs.Prelude.{◌≡◌, ℕ, List, Some, true, false, is_some, IfOk, IfSome, OnOk};
ghost use Rattle.std.specs.List.{AllZip};
ghost use Rattle.kb_class.specs.Loading.{SpellsKind};
ghost use Rattle.kb_class.specs.declared.members.MemberKind.TheVariants as kinds;
ghost use Rattle.kb_texts.specs.Texts.{Keeps};
ghost use Rattle.kb_numbers.specs.Numbers.{IsMethodPair};
ghost use Rattle.kb_numbers.specs.Typed.{AreEnds, IsTyped, IsTypedMethod, KeepsTypes, told_in};
ghost use Rattle.kb_numbers.specs.Types.{HasTextAt, IsPartOf, IsTypePath, with_name, with_names, with_param_names};

use crate::pairs::Pair;
use crate::parts::{Part, Parts, element_of, result_symbol, symbol_of};
use kb_class::MethodInfo;
use kb_names::{JType, MethodType, NoMemory};
use kb_texts::Texts;
use std::alloc::Global;
use std::collections::HashMap;

/// Types of methods by their parts, and the numbers of their descriptors.
#[derive(Drop)]
pub struct Types {
    pub parts: Parts,
    // Of the first part of a type the number of the type's descriptor.
    pub ends: HashMap<u32, u32>,
    // Of such a number the first part of the type.
    pub seen: HashMap<u32, u32>,
}

impl Types {
    /// No types.
    pub(crate) fn new(alloc: Global) -> Types
        ensures { (texts : List (List ℕ)) → AreEnds texts result }
    {
        Types {
            parts: Parts::new(alloc),
            ends: HashMap::new(alloc),
            seen: HashMap::new(alloc),
        }
    }

    /// The number of the descriptor of a type, if it is told.
    pub(crate) fn number_of(&self, texts: &Texts, kind: &MethodType) -> Option<u32>
        ensures found { IfSome result (IsTyped texts.now self.now kind.now) }
        ensures whole { (number : ℕ) → IsTyped texts.now self.now kind.now number → result ≡ Some number }
    {
        let first = first_part(&self.parts, texts, kind)?;
        self.ends.get(&first).copied()
    }
}

// The number of the first part of a type, if all its parts are there.
fn first_part(parts: &Parts, texts: &Texts, kind: &MethodType) -> Option<u32>
    ensures found { IfSome result (IsTypePath texts.now parts.now kind.now) }
    ensures whole { (number : ℕ) → IsTypePath texts.now parts.now kind.now number → result ≡ Some number }
{
    let params = kind.params.as_slice();
    let mut number = result_part(parts, texts, &kind.result)?;
    for back in 0..params.len() {
        let place = params.len() - 1 - back;
        let next = param_part(parts, texts, number, &params[place])?;
        number = next;
    }
    Some(number)
}

fn result_part(parts: &Parts, texts: &Texts, of: &Option<JType>) -> Option<u32>
    ensures found { IfSome result (IsPartOf texts.now parts.now 0 of.now) }
    ensures whole { (number : ℕ) → IsPartOf texts.now parts.now 0 of.now number → result ≡ Some number }
{
    let symbol = result_symbol(texts, of)?;
    parts.number(Part { behind: 0, symbol })
}

// The number of the part of a parameter that stands before the part of the other number.
fn param_part(parts: &Parts, texts: &Texts, behind: u32, of: &JType) -> Option<u32>
    ensures found { IfSome result (IsPartOf texts.now parts.now behind (Some of.now)) }
    ensures whole { (number : ℕ) → IsPartOf texts.now parts.now behind (Some of.now) number → result ≡ Some number }
{
    let symbol = symbol_of(texts, of)?;
    parts.number(Part { behind, symbol })
}

// Adds the parts of a type whose classes' names have numbers, and tells the first one's.
fn add_parts(parts: &mut Parts, texts: &Texts, kind: &MethodType) -> Result<u32, NoMemory>
    ensures keeps { OnOk result (Keeps parts.old parts.new) }
    ensures path { IfOk result (IsTypePath texts.now parts.new kind.now) }
{
    let params = kind.params.as_slice();
    let mut number = add_result(parts, texts, &kind.result)?;
    for back in 0..params.len() {
        let place = params.len() - 1 - back;
        let next = add_param(parts, texts, number, &params[place])?;
        number = next;
    }
    Ok(number)
}

// Adds the part of a result. One that has no number counts as out of memory.
fn add_result(parts: &mut Parts, texts: &Texts, of: &Option<JType>) -> Result<u32, NoMemory>
    ensures keeps { OnOk result (Keeps parts.old parts.new) }
    ensures part { IfOk result (IsPartOf texts.now parts.new 0 of.now) }
{
    let Some(symbol) = result_symbol(texts, of) else {
        return Err(NoMemory);
    };
    let number = parts.add(Part { behind: 0, symbol })?;
    Ok(number)
}

// Adds the part of a parameter that stands before the part of that number.
fn add_param(parts: &mut Parts, texts: &Texts, behind: u32, of: &JType) -> Result<u32, NoMemory>
    ensures keeps { OnOk result (Keeps parts.old parts.new) }
    ensures part { IfOk result (IsPartOf texts.now parts.new behind (Some of.now)) }
{
    let Some(symbol) = symbol_of(texts, of) else {
        return Err(NoMemory);
    };
    let number = parts.add(Part { behind, symbol })?;
    Ok(number)
}

// Gives numbers to the names of the classes in a type.
fn add_names(alloc: Global, kind: &MethodType, texts: &mut Texts) -> Result<(), NoMemory>
    ensures keeps { OnOk result (Keeps texts.old texts.new) }
    ensures names { OnOk result (texts.new ≡ with_names texts.old kind.now) }
{
    add_param_names(alloc, kind.params.as_slice(), texts)?;
    match &kind.result {
        Some(of) => add_name(alloc, of, texts),
        None => Ok(()),
    }
}

fn add_param_names(alloc: Global, params: &[JType], texts: &mut Texts) -> Result<(), NoMemory>
    ensures keeps { OnOk result (Keeps texts.old texts.new) }
    ensures names { OnOk result (texts.new ≡ with_param_names texts.old params.now) }
{
    for param in params {
        add_name(alloc, param, texts)?;
    }
    Ok(())
}

// A type of more dimensions than 32 bits tell counts as out of memory.
fn add_name(alloc: Global, of: &JType, texts: &mut Texts) -> Result<(), NoMemory>
    ensures keeps { OnOk result (Keeps texts.old texts.new) }
    ensures names { OnOk result (texts.new ≡ with_name texts.old of.now) }
{
    let Some((_, element)) = element_of(of) else {
        return Err(NoMemory);
    };
    match element {
        JType::Class(name) => {
            texts.place(alloc, name.as_slice())?;
            Ok(())
        }
        _ => Ok(()),
    }
}

// Adds the type of a method, whose descriptor has that number, unless the number was met.
fn add_type(
    alloc: Global,
    kind: &MethodType,
    number: u32,
    types: &mut Types,
    texts: &mut Texts,
) -> Result<(), NoMemory>
    requires { AreEnds texts.old types.old × HasTextAt texts.old number (SpellsKind (kinds.Method kind.now)) }
    ensures met { OnOk result (is_some (told_in types.old.seen number) ≡ true → (texts.new ≡ texts.old) × (types.new ≡ types.old)) }
    ensures names { OnOk result (is_some (told_in types.old.seen number) ≡ false → texts.new ≡ with_names texts.old kind.now) }
    ensures keeps { OnOk result (Keeps texts.old texts.new × KeepsTypes types.old types.new) }
    ensures ends { OnOk result (AreEnds texts.new types.new) }
    ensures typed { OnOk result (IsTyped texts.new types.new kind.now number) }
{
    if types.seen.contains_key(&number) {
        return Ok(());
    }
    texts.tell_distinct();
    add_names(alloc, kind, texts)?;
    let first = add_parts(&mut types.parts, texts, kind)?;
    types.ends.insert(first, number)?;
    types.seen.insert(number, first)?;
    Ok(())
}

/// Adds the types of these methods, beside which their pairs stand.
pub(crate) fn add_types(
    alloc: Global,
    methods: &[MethodInfo],
    pairs: &[Pair],
    types: &mut Types,
    texts: &mut Texts,
) -> Result<(), NoMemory>
    requires { AreEnds texts.old types.old × AllZip (IsMethodPair texts.old) methods.now pairs.now }
    ensures keeps { OnOk result (Keeps texts.old texts.new × KeepsTypes types.old types.new) }
    ensures ends { OnOk result (AreEnds texts.new types.new) }
    ensures typed { OnOk result (AllZip (IsTypedMethod texts.new types.new) methods.now pairs.now) }
{
    for (place, method) in methods.iter().enumerate() {
        add_type(alloc, &method.kind, pairs[place].kind, types, texts)?;
    }
    Ok(())
}
