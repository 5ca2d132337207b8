//! Classes by their numbers.
ghost use Rattle.std.specs.Prelude.{◌≡◌};
ghost use Rattle.kb_link.specs.Links.{IsLinked};
ghost use Rattle.kb_classes.specs.Slots.{slots_of};
ghost use Rattle.kb_classes.specs.World.{chain_of, number_in};
ghost use Rattle.kb_resolution.specs.Tables.{stands_at};

use kb_class::ClassId;
use kb_link::{FieldSlot, Linked};

/// The number of the class whose name has these bytes.
pub(crate) fn number_named(linked: &Linked, name: &[u8]) -> Option<u32>
    ensures { result ≡ number_in linked.now.classes name.now }
{
    match linked.class_of_text(name) {
        Some(id) => Some(id.0),
        None => None,
    }
}

/// The numbers of a class and of its superclasses; none where no class has the number.
pub fn chain_at(linked: &Linked, number: u32) -> &[u32]
    requires { IsLinked linked.now }
    ensures { result.now ≡ chain_of linked.now number }
{
    if number >= linked.class_count() {
        return &[];
    }
    linked.chain_of(ClassId(number))
}

/// The slots of the objects of a class; none where no class has the number.
pub fn slots_at(linked: &Linked, number: u32) -> &[FieldSlot]
    requires { IsLinked linked.now }
    ensures { result.now ≡ slots_of linked.now number }
{
    if number >= linked.class_count() {
        return &[];
    }
    linked.fields_of(ClassId(number))
}

/// Whether the number stands at the place.
pub fn stands_at(chain: &[u32], place: usize, number: u32) -> bool
    ensures { result ≡ stands_at chain.now place number }
{
    match chain.get(place) {
        Some(above) => *above == number,
        None => false,
    }
}
