//! Resolution and selection of methods (JVMS 8 sections 5.4.3.3, 5.4.3.4 and 5.4.6).
ghost use Rattle.std.specs.Prelude.{◌≡◌, ◌<◌, ◌∷◌, [], length, slice_get};
ghost use Rattle.kb_class.specs.Platform.{object_name};
ghost use Rattle.kb_classes.specs.Rules.{is_interface};
ghost use Rattle.kb_classes.specs.Subtypes.{numbers_of};
ghost use Rattle.kb_resolution.specs.Lookup.{declares, declares_open, first_along, first_sought, is_open, resolved_in, superinterfaces};
ghost use Rattle.kb_resolution.specs.Tables.{IsSearched, is_superinterface, open_if_above};

use crate::chains::number_named;
use kb_class::{ClassId, LoadedClass, MethodId, MethodInfo};
use kb_link::Linked;
use kb_names::MethodType;
use kb_numbers::{Numbers, Pair};

/// ACC_PRIVATE and ACC_STATIC (JVMS 8 table 4.6-A).
const PRIVATE_OR_STATIC: u16 = 0x000a;

/// ACC_INTERFACE (JVMS 8 table 4.1-A).
const INTERFACE: u16 = 0x0200;

/// Where the methods of arrays are sought, and those that each interface has.
pub const OBJECT: &[u8] = b"java/lang/Object";

/// A method that is sought, by its name, its type and the pair of them. Methods are told apart by the pair.
#[derive(Clone, Copy)]
pub(crate) struct Wanted<'a> {
    pub(crate) name: &'a [u8],
    pub(crate) kind: &'a MethodType,
    pub(crate) pair: Pair,
}

// The method of the name and type that the class of a number declares.
fn declared_in(linked: &Linked, numbers: &Numbers, number: u32, wanted: Wanted<'_>) -> Option<u32>
    requires { IsSearched linked.now numbers.now wanted }
    ensures { result ≡ declares linked.now wanted.entry.name.now wanted.entry.kind.now number }
{
    if number >= linked.class_count() {
        return None;
    }
    numbers.method(number, wanted.pair)
}

// That method, where it is neither private nor static.
fn open_in(linked: &Linked, numbers: &Numbers, number: u32, wanted: Wanted<'_>) -> Option<u32>
    requires { IsSearched linked.now numbers.now wanted }
    ensures { result ≡ declares_open linked.now wanted.entry.name.now wanted.entry.kind.now number }
{
    let Some(id) = declared_in(linked, numbers, number, wanted) else {
        return None;
    };
    if !is_open(linked.method_of(MethodId(id))) {
        return None;
    }
    Some(id)
}

/// Whether the method is neither private nor static.
pub fn is_open(method: &MethodInfo) -> bool
    ensures { result ≡ is_open method.now }
{
    method.access & PRIVATE_OR_STATIC == 0
}

fn is_interface(class: &LoadedClass) -> bool
    ensures { result ≡ is_interface class.now }
{
    class.access() & INTERFACE != 0
}

/// The first method of the name and type that one of these classes declares.
pub(crate) fn found_along(
    linked: &Linked,
    numbers: &Numbers,
    chain: &[u32],
    wanted: Wanted<'_>,
) -> Option<u32>
    requires { IsSearched linked.now numbers.now wanted }
    ensures { result ≡ first_along (declares linked.now wanted.entry.name.now wanted.entry.kind.now) chain.now }
{
    let mut rest = chain;
    while let [number, others @ ..] = rest {
        if let Some(id) = declared_in(linked, numbers, *number, wanted) {
            return Some(id);
        }
        rest = others;
    }
    None
}

/// The method that a name and a type stand for in the class of that number.
pub(crate) fn resolved_in(
    linked: &Linked,
    numbers: &Numbers,
    number: u32,
    wanted: Wanted<'_>,
) -> Option<u32>
    requires { IsSearched linked.now numbers.now wanted × (number < length linked.now.classes) }
    ensures { result ≡ resolved_in linked.now wanted.entry.name.now wanted.entry.kind.now number }
{
    match found_first(linked, numbers, number, wanted) {
        Some(id) => Some(id),
        None => found_above(linked, numbers, number, wanted),
    }
}

// The method in the class and its superclasses, or in the interface and java/lang/Object.
fn found_first(linked: &Linked, numbers: &Numbers, number: u32, wanted: Wanted<'_>) -> Option<u32>
    requires { IsSearched linked.now numbers.now wanted × (number < length linked.now.classes) }
    ensures { result ≡ first_along (declares linked.now wanted.entry.name.now wanted.entry.kind.now) (first_sought linked.now number (slice_get linked.now.classes number)) }
{
    if is_interface(linked.class_of(ClassId(number))) {
        return found_in_interface(linked, numbers, number, wanted);
    }
    found_along(linked, numbers, linked.chain_of(ClassId(number)), wanted)
}

// The method in the interface and java/lang/Object.
fn found_in_interface(
    linked: &Linked,
    numbers: &Numbers,
    number: u32,
    wanted: Wanted<'_>,
) -> Option<u32>
    requires { IsSearched linked.now numbers.now wanted }
    ensures { result ≡ first_along (declares linked.now wanted.entry.name.now wanted.entry.kind.now) (number ∷ numbers_of linked.now.classes (object_name ∷ [])) }
{
    if let Some(id) = declared_in(linked, numbers, number, wanted) {
        return Some(id);
    }
    match number_named(linked, OBJECT) {
        Some(object) => declared_in(linked, numbers, object, wanted),
        None => None,
    }
}

// The first method that is neither private nor static in a superinterface of the class, in the order of the world.
fn found_above(linked: &Linked, numbers: &Numbers, low: u32, wanted: Wanted<'_>) -> Option<u32>
    requires { IsSearched linked.now numbers.now wanted }
    ensures { result ≡ first_along (declares_open linked.now wanted.entry.name.now wanted.entry.kind.now) (superinterfaces linked.now low) }
{
    for number in 0..linked.class_count() {
        if let Some(id) = found_if_above(linked, numbers, low, number, wanted) {
            return Some(id);
        }
    }
    None
}

// That in the class of a number, where it is a superinterface.
fn found_if_above(
    linked: &Linked,
    numbers: &Numbers,
    low: u32,
    number: u32,
    wanted: Wanted<'_>,
) -> Option<u32>
    requires { IsSearched linked.now numbers.now wanted × (number < length linked.now.classes) }
    ensures { result ≡ open_if_above linked.now low wanted.entry.name.now wanted.entry.kind.now number }
{
    if !is_superinterface(linked, low, number) {
        return None;
    }
    open_in(linked, numbers, number, wanted)
}

// Whether the class of a number is an interface, and another class than the first one and above it.
fn is_superinterface(linked: &Linked, low: u32, number: u32) -> bool
    requires { number < length linked.now.classes }
    ensures { result ≡ is_superinterface linked.now low number }
{
    if !is_interface(linked.class_of(ClassId(number))) {
        return false;
    }
    if number == low {
        return false;
    }
    linked.is_above(ClassId(low), ClassId(number))
}
