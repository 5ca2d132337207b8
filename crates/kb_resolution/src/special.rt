//! What an entry of a method stands for: the method that it names, and the one that invokespecial of it calls (JVMS 8
//! sections 5.4.3.3 and 6.5).
ghost use Rattle.std.specs.Prelude.{◌≡◌, ◌==◌, ◌<◌, drop, length, IfSome};
ghost use Rattle.std.specs.List.{list_any};
ghost use Rattle.std.specs.Option.{option_and_then};
ghost use Rattle.kb_link.specs.Links.{IsLinked};
ghost use Rattle.kb_resolution.specs.Lookup.{class_number, class_of, if_class, resolved_in, special_for, special_start};
ghost use Rattle.kb_resolution.specs.Tables.{IsSearched};

use crate::chains::{chain_at, number_named};
use crate::methods::{OBJECT, Wanted, found_along, resolved_in};
use kb_link::Linked;
use kb_names::ExactType;
use kb_numbers::Numbers;

/// The method that is sought in the class of that number.
pub(crate) fn method_sought(
    linked: &Linked,
    numbers: &Numbers,
    number: Option<u32>,
    wanted: Wanted<'_>,
) -> Option<u32>
    requires { IsSearched linked.now numbers.now wanted × IfSome number (λ class. class < length linked.now.classes) }
    ensures { result ≡ option_and_then (resolved_in linked.now wanted.entry.name.now wanted.entry.kind.now) number }
{
    match number {
        Some(class) => resolved_in(linked, numbers, class, wanted),
        None => None,
    }
}

/// What invokespecial calls of what is sought in the class of that number, in code of the class `current`.
pub(crate) fn special_sought(
    linked: &Linked,
    numbers: &Numbers,
    current: u32,
    number: Option<u32>,
    wanted: Wanted<'_>,
) -> Option<u32>
    requires { IsSearched linked.now numbers.now wanted }
    ensures { result ≡ option_and_then (special_for linked.now current wanted.entry.name.now wanted.entry.kind.now) number }
{
    match number {
        Some(named) => special_for(linked, numbers, current, wanted, named),
        None => None,
    }
}

/// The number of the class in which the members of a type are sought.
pub(crate) fn class_of(linked: &Linked, class: &ExactType) -> Option<u32>
    ensures { result ≡ class_of linked.now class.now }
{
    match class {
        ExactType::Class(name) => number_named(linked, name.as_slice()),
        ExactType::Array(_) => number_named(linked, OBJECT),
    }
}

/// The number of the class that the type is: none of an array.
pub(crate) fn class_number(linked: &Linked, of: &ExactType) -> Option<u32>
    ensures { result ≡ class_number linked.now of.now }
{
    match of {
        ExactType::Class(name) => number_named(linked, name.as_slice()),
        ExactType::Array(_) => None,
    }
}

/// The number of the class in which the members of the type are sought, where the type is that class.
pub(crate) fn if_class(of: &ExactType, number: Option<u32>) -> Option<u32>
    ensures { result ≡ if_class of.now number }
{
    match of {
        ExactType::Class(_) => number,
        ExactType::Array(_) => None,
    }
}

// The first method of the name and type from the class upwards at which invokespecial begins.
fn special_for(
    linked: &Linked,
    numbers: &Numbers,
    current: u32,
    wanted: Wanted<'_>,
    named: u32,
) -> Option<u32>
    requires { IsSearched linked.now numbers.now wanted }
    ensures { result ≡ special_for linked.now current wanted.entry.name.now wanted.entry.kind.now named }
{
    let start = special_start(linked, current, wanted.name, named);
    found_along(linked, numbers, chain_at(linked, start), wanted)
}

// The class at which invokespecial begins: the superclass of the class whose code calls, where a method other than a
// constructor of any superclass is named; else the named class.
fn special_start(linked: &Linked, current: u32, name: &[u8], named: u32) -> u32
    requires { IsLinked linked.now }
    ensures { result ≡ special_start linked.now current name.now named }
{
    if name == b"<init>".as_slice() {
        return named;
    }
    let chain = chain_at(linked, current);
    if !is_superclass(chain, named) {
        return named;
    }
    match chain {
        [_, direct, ..] => *direct,
        _ => named,
    }
}

// Whether the class stands in the chain above its first.
fn is_superclass(chain: &[u32], number: u32) -> bool
    ensures { result ≡ list_any (λ above. above == number) (drop 1 chain.now) }
{
    match chain {
        [_, above @ ..] => above.contains(&number),
        [] => false,
    }
}
