//! The parts of the types of methods, each once.
ghost use Rattle.std.specs.Prelude.{◌≡◌, ◌+◌, ◌<◌, ◌≤◌, ◌^◌, ℕ, [], Some, slice_get, IfOk, IfSome, IfNone, OnOk};
ghost use Rattle.kb_names.specs.Types.{shape_of};
ghost use Rattle.kb_texts.specs.Texts.{Keeps};
ghost use Rattle.kb_numbers.specs.declared.parts.Symbol.{Symbol as PlainSymbol};
ghost use Rattle.kb_numbers.specs.Types.{HasPart, IsNameOf, IsSymbol, IsTypeSymbol, code_of, with_part};

use indexmap::IndexSet;
use kb_names::{JType, NoMemory};
use kb_texts::Texts;
use std::alloc::Global;
use std::marker::Model;

/// The symbol of a result that a method does not have.
const VOID: Symbol = Symbol {
    dims: 0,
    base: 9,
    name: 0,
};

/// A type by numbers: how many dimensions it has, what its elements are, and the number of the name of their class.
#[derive(Clone, Copy, PartialEq, Eq, Hash)]
pub struct Symbol {
    pub dims: u32,
    pub base: u8,
    pub name: u32,
}

/// A part of the type of a method: its result, or a parameter, which stands before the part of the number `behind`. Parts have
/// numbers from 1 in the order in which they came; behind a result stands none, which is 0.
#[derive(Clone, Copy, PartialEq, Eq, Hash)]
pub struct Part {
    pub behind: u32,
    pub symbol: Symbol,
}

/// Parts, each once, in the order in which they came. Contracts see the list of them.
#[derive(Drop)]
pub struct Parts {
    set: IndexSet<Part>,
}

impl Model for Parts {
    ghost use Rattle.std.specs.Prelude.{List};
    ghost use Rattle.kb_numbers.specs.declared.parts.Part.{Part as PlainPart};
    ghost use Rattle.kb_texts.specs.Texts.{AreDistinct};

    ghost Value = { List PlainPart };

    ghost view = { λ parts. parts.set.keys };

    ghost invariant = { λ parts. AreDistinct parts.set.keys };
}

impl Parts {
    /// No parts.
    pub(crate) fn new(alloc: Global) -> Parts
        ensures { result ≡ [] }
    {
        Parts {
            set: IndexSet::new(alloc),
        }
    }

    /// The number of a part, which goes to the end unless it is there. Parts without numbers of 32 bits count as out of memory.
    pub(crate) fn add(&mut self, part: Part) -> Result<u32, NoMemory>
        ensures parts { OnOk result (self.new ≡ with_part self.old part) }
        ensures number { IfOk result (HasPart self.new part) }
        ensures keeps { OnOk result (Keeps self.old self.new) }
    {
        let (place, _) = self.set.insert_full(part)?;
        let Some(number) = number_of_place(place) else {
            return Err(NoMemory);
        };
        Ok(number)
    }

    /// The number of a part, if it is there.
    pub(crate) fn number(&self, part: Part) -> Option<u32>
        ensures found { IfSome result (HasPart self.now part) }
        ensures whole { (number : ℕ) → HasPart self.now part number → result ≡ Some number }
    {
        let place = self.set.get_index_of(&part)?;
        number_of_place(place)
    }
}

// The number of the part at a place, if it has one of 32 bits.
fn number_of_place(place: usize) -> Option<u32>
    ensures some { IfSome result (λ number. number ≡ place + 1) }
    ensures fits { IfSome result (λ number. number < 2 ^ 32) }
    ensures none { IfNone result (2 ^ 32 ≤ place + 1) }
{
    match u32::try_from(place) {
        Ok(place) => place.checked_add(1),
        Err(_) => None,
    }
}

/// The number of a text, if it has one of 32 bits.
pub(crate) fn text_number(texts: &Texts, text: &[u8]) -> Option<u32>
    ensures found { IfSome result (λ number. (slice_get texts.now number ≡ Some text.now) × (number < 2 ^ 32)) }
    ensures whole { (number : ℕ) → number < 2 ^ 32 → slice_get texts.now number ≡ Some text.now → result ≡ Some number }
{
    texts.tell_distinct();
    let place = texts.place_of(text)?;
    match u32::try_from(place) {
        Ok(number) => Some(number),
        Err(_) => None,
    }
}

/// How many dimensions the type has, and the type of its elements; none of more than 32 bits tell.
pub(crate) fn element_of(of: &JType) -> Option<(u32, &JType)>
    ensures found { IfSome result (λ told. (told.0 ≡ (shape_of of.now).dims) × (told.0 < 2 ^ 32) × ((shape_of told.1.now).base ≡ (shape_of of.now).base) × ((shape_of told.1.now).dims ≡ 0)) }
    ensures none { IfNone result (2 ^ 32 ≤ (shape_of of.now).dims) }
{
    let mut dims: u32 = 0;
    let mut inner = of;
    while let JType::Array(component) = inner {
        let Some(more) = dims.checked_add(1) else {
            return None;
        };
        dims = more;
        inner = component.get();
    }
    Some((dims, inner))
}

// What elements are, by a number.
fn code_of(element: &JType) -> u8
    requires { (shape_of element.now).dims ≡ 0 }
    ensures { result ≡ code_of (shape_of element.now).base }
{
    match element {
        JType::Bool => 0,
        JType::Byte => 1,
        JType::Char => 2,
        JType::Short => 3,
        JType::Int => 4,
        JType::Long => 5,
        JType::Float => 6,
        JType::Double => 7,
        JType::Class(_) => 8,
        JType::Array(_) => unreachable!(),
    }
}

// The number of the name of the class that elements are; 0 where they are none.
fn name_of(texts: &Texts, element: &JType) -> Option<u32>
    requires { (shape_of element.now).dims ≡ 0 }
    ensures found { IfSome result (λ number. IsNameOf texts.now (shape_of element.now).base number × (number < 2 ^ 32)) }
    ensures whole { (number : ℕ) → number < 2 ^ 32 → IsNameOf texts.now (shape_of element.now).base number → result ≡ Some number }
{
    match element {
        JType::Class(name) => text_number(texts, name.as_slice()),
        _ => Some(0),
    }
}

/// The symbol of a type, if the name of its class has a number.
pub(crate) fn symbol_of(texts: &Texts, of: &JType) -> Option<Symbol>
    ensures found { IfSome result (IsTypeSymbol texts.now of.now) }
    ensures whole { (symbol : PlainSymbol) → IsTypeSymbol texts.now of.now symbol → result ≡ Some symbol }
{
    let (dims, element) = element_of(of)?;
    let name = name_of(texts, element)?;
    Some(Symbol {
        dims,
        base: code_of(element),
        name,
    })
}

/// That of a result.
pub(crate) fn result_symbol(texts: &Texts, of: &Option<JType>) -> Option<Symbol>
    ensures found { IfSome result (IsSymbol texts.now of.now) }
    ensures whole { (symbol : PlainSymbol) → IsSymbol texts.now of.now symbol → result ≡ Some symbol }
{
    match of {
        Some(of) => symbol_of(texts, of),
        None => Some(VOID),
    }
}
