//! How deep a new object would lie.
ghost use Rattle.std.specs.Prelude.{◌≡◌, ◌<◌, nat_lt, IfSome};
ghost use Rattle.kb_semantics.specs.Looks.{only_where};
ghost use Rattle.kb_picture.specs.Depths.{depth_at};
ghost use Rattle.kb_lazy.specs.Holders.{holder_in};

use kb_picture::{Origin, Picture};

/// Whether a new object in the slot would lie deeper than `most` objects, the one that an argument holds being the first. It
/// takes a step for each object from the slot to its argument, and at most `most` of them.
#[tactic(auto, using(crate::proofs::DepthLaws::no_step, crate::proofs::DepthLaws::none_left))]
pub(crate) fn is_deeper(picture: &Picture, slot: Origin, most: u32) -> bool
    ensures { result ≡ nat_lt most (depth_at picture.now slot) }
{
    // An object is found in a slot of one before it.
    let mut before = picture.objects.as_slice();
    let mut origin = slot;
    let mut left = most;
    while left > 0 {
        let Some(holder) = holder_in(before.len(), origin) else {
            return false;
        };
        origin = before[holder as usize].origin;
        before = &before[..holder as usize];
        left -= 1;
    }
    true
}

// The number of the object that has the slot or the element, where it is one of the first so many.
fn holder_in(count: usize, slot: Origin) -> Option<u32>
    ensures holder { result ≡ holder_in count slot }
    ensures inside { IfSome result (λ holder. holder < count) }
{
    match slot {
        Origin::Arg(_) => None,
        Origin::Field(object, _) => below(count, object),
        Origin::Element(array, _) => below(count, array),
    }
}

fn below(count: usize, number: u32) -> Option<u32>
    ensures number { result ≡ only_where (nat_lt number count) number }
    ensures inside { IfSome result (λ it. it < count) }
{
    if number as usize >= count {
        return None;
    }
    Some(number)
}
