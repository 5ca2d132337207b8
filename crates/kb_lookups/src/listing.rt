//! The instructions of a method's code, by their offsets.

ghost use Rattle.std.specs.Prelude.{◌≡◌, drop, option_map};
ghost use Rattle.kb_code.specs.Listing.{offset_of};
ghost use Rattle.kb_semantics.specs.Config.{behind, instruction_at};
ghost use Rattle.kb_lookups.specs.Listings.{from_place, plain_found};

use kb_class::MethodId;
use kb_code::Instr;
use kb_semantics::World;

/// An instruction, and the offset behind it.
#[derive(Clone, Copy)]
pub struct Found<'w> {
    pub instr: &'w Instr,
    pub next: u32,
}

/// The instruction at an offset of a method's code: None where the code has run off its end, or there is none. It takes no
/// memory.
#[tactic(auto, using(crate::proofs::ListingLaws::by_place))]
pub fn instruction_at(world: &World, method: MethodId, at: u32) -> Option<Found<'_>>
    ensures { option_map plain_found result ≡ instruction_at world.now method at }
{
    let place = world.find_place(method, at);
    match world.find_code(method) {
        Some(code) => found_at(code.listing.items.as_slice(), code.size, place),
        None => None,
    }
}

// The instruction at a place of a listing.
fn found_at(items: &[(u32, Instr)], size: u32, place: Option<u32>) -> Option<Found<'_>>
    ensures { option_map plain_found result ≡ from_place items.now size place }
{
    let place = place? as usize;
    let item = items.get(place)?;
    Some(Found {
        instr: &item.1,
        next: offset_at(items, place + 1, size),
    })
}

// The offset of the item at that place, or the code's length.
fn offset_at(items: &[(u32, Instr)], place: usize, size: u32) -> u32
    ensures { result ≡ offset_of (drop place items.now) size }
{
    match items.get(place) {
        Some((at, _)) => *at,
        None => size,
    }
}

/// The offset behind the instruction at an offset. It takes no memory.
pub fn behind(world: &World, method: MethodId, at: u32) -> u32
    ensures { result ≡ behind world.now method at }
{
    match instruction_at(world, method, at) {
        Some(found) => found.next,
        None => at,
    }
}
