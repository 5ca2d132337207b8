//! Resolution of fields (JVMS 8 section 5.4.3.2).
ghost use Rattle.std.specs.Prelude.{◌≡◌};
ghost use Rattle.std.specs.Option.{option_and_then, option_copied};
ghost use Rattle.kb_class.specs.declared.entries.ReferenceKind.TheVariants as references;
ghost use Rattle.kb_class.specs.declared.members.MemberKind.TheVariants as kinds;
ghost use Rattle.kb_numbers.specs.Numbers.{AreNumbered, StandsFor};
ghost use Rattle.kb_link.specs.Links.{IsLinked};
ghost use Rattle.kb_resolution.specs.Lookup.{class_of, class_of_field, first_along, declaring, field_class};
ghost use Rattle.kb_resolution.specs.Tables.{slot_in, slot_place};

use crate::chains::{chain_at, slots_at};
use crate::tables::slot_place;
use kb_link::{FieldSlot, Linked};
use kb_names::{ExactType, JType};
use kb_numbers::{Numbers, Pair};
use std::collections::HashMap;

/// A field that is sought, by its name, its type and the pair of them.
#[derive(Clone, Copy)]
pub(crate) struct WantedField<'a> {
    pub(crate) name: &'a [u8],
    pub(crate) kind: &'a JType,
    pub(crate) pair: Pair,
}

// The number, where its class declares such a field.
fn declaring(
    linked: &Linked,
    numbers: &Numbers,
    number: u32,
    wanted: WantedField<'_>,
) -> Option<u32>
    requires { AreNumbered linked.now.classes numbers.now × StandsFor numbers.now.texts wanted.pair wanted.name.now (kinds.Field wanted.kind.now) }
    ensures { result ≡ declaring linked.now wanted.entry.name.now wanted.entry.kind.now number }
{
    if number >= linked.class_count() {
        return None;
    }
    match numbers.field_place(number, wanted.pair) {
        Some(_) => Some(number),
        None => None,
    }
}

// The first of these classes that declares such a field.
fn first_declaring(
    linked: &Linked,
    numbers: &Numbers,
    chain: &[u32],
    wanted: WantedField<'_>,
) -> Option<u32>
    requires { AreNumbered linked.now.classes numbers.now × StandsFor numbers.now.texts wanted.pair wanted.name.now (kinds.Field wanted.kind.now) }
    ensures { result ≡ first_along (declaring linked.now wanted.entry.name.now wanted.entry.kind.now) chain.now }
{
    let mut rest = chain;
    while let [number, others @ ..] = rest {
        if let Some(found) = declaring(linked, numbers, *number, wanted) {
            return Some(found);
        }
        rest = others;
    }
    None
}

// The class that declares the field which is sought in the class of that number.
fn field_class(
    linked: &Linked,
    numbers: &Numbers,
    number: Option<u32>,
    wanted: WantedField<'_>,
) -> Option<u32>
    requires { IsLinked linked.now × AreNumbered linked.now.classes numbers.now × StandsFor numbers.now.texts wanted.pair wanted.name.now (kinds.Field wanted.kind.now) }
    ensures { result ≡ option_and_then (λ class. field_class linked.now class wanted.entry.name.now wanted.entry.kind.now) number }
{
    match number {
        Some(class) => first_declaring(linked, numbers, chain_at(linked, class), wanted),
        None => None,
    }
}

/// The class that declares the field which is sought in the type, whose members are sought in the class of that number: none
/// in an array.
pub(crate) fn class_of_field(
    linked: &Linked,
    numbers: &Numbers,
    of: &ExactType,
    number: Option<u32>,
    wanted: WantedField<'_>,
) -> Option<u32>
    requires { IsLinked linked.now × AreNumbered linked.now.classes numbers.now × StandsFor numbers.now.texts wanted.pair wanted.name.now (kinds.Field wanted.kind.now) × (number ≡ class_of linked.now of.now) }
    ensures { result ≡ class_of_field linked.now references.Field of.now wanted.entry.name.now (kinds.Field wanted.entry.kind.now) }
{
    match of {
        ExactType::Class(_) => field_class(linked, numbers, number, wanted),
        ExactType::Array(_) => None,
    }
}

/// The place of the slot of the field of that pair, among those of the class that declares it.
pub(crate) fn slot_sought(
    slots: &[HashMap<Pair, u32>],
    declaring: Option<u32>,
    pair: Pair,
) -> Option<u32>
    ensures { result ≡ option_and_then (λ class. slot_place slots.now class pair) declaring }
{
    match declaring {
        Some(class) => slot_place(slots, class, pair),
        None => None,
    }
}

/// The slot at a place among those of the class that declares its field.
pub fn slot_in(linked: &Linked, declaring: Option<u32>, slot: Option<u32>) -> Option<&FieldSlot>
    requires { IsLinked linked.now }
    ensures { option_copied result ≡ slot_in linked.now declaring slot }
{
    match (declaring, slot) {
        (Some(class), Some(place)) => slots_at(linked, class).get(place as usize),
        _ => None,
    }
}
