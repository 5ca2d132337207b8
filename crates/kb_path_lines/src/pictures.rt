//! The lines of a picture.

use crate::texts::{push, split};
use crate::words::{numbered, read_exact, read_seen, read_slot, read_standing};
use kb_picture::{Length, Origin, PicLoc, PicObject, Picture, Seen};
use kb_table::{RowResult, RowStop, read_number};
use std::alloc::Global;

/// A slot and what is seen there, a location, or an object.
pub fn add_to_picture(
    alloc: Global,
    word: &str,
    rest: &str,
    picture: &mut Picture,
) -> RowResult<()> {
    match word.as_bytes() {
        b"see" => push(read_seen_slot(rest), &mut picture.seen),
        b"loc" => push(read_loc(picture.seen.as_slice(), rest), &mut picture.locs),
        _ => push(read_pictured(alloc, rest), &mut picture.objects),
    }
}

/// As in `a0 l0`.
fn read_seen_slot(text: &str) -> RowResult<(Origin, Seen)> {
    let (slot, seen) = split(text);
    Ok((read_slot(slot)?, read_seen(seen)?))
}

/// As in `l0 open`; its slot is the one that is seen as it.
fn read_loc(seen: &[(Origin, Seen)], text: &str) -> RowResult<PicLoc> {
    let (word, standing) = split(text);
    let Some(number) = numbered(word, "l") else {
        return Err(RowStop::Malformed);
    };
    let Some(origin) = slot_of(seen, number) else {
        return Err(RowStop::Malformed);
    };
    Ok(PicLoc {
        origin,
        standing: read_standing(standing)?,
    })
}

/// The slot that is seen as the location.
fn slot_of(seen: &[(Origin, Seen)], number: u32) -> Option<Origin> {
    for (slot, held) in seen {
        if *held == Seen::Loc(number) {
            return Some(*slot);
        }
    }
    None
}

/// As in `o0 Node a0`, `o1 [I length 2 a1` or `o1 [I above 3 a1`.
fn read_pictured(alloc: Global, text: &str) -> RowResult<PicObject> {
    let (_, text) = split(text);
    let (kind, text) = split(text);
    let (length, origin) = read_found(text)?;
    let kind = read_exact(alloc, kind)?;
    Ok(PicObject {
        kind,
        length,
        origin,
    })
}

/// The length of an object, and the slot in which it was found.
fn read_found(text: &str) -> RowResult<(Length, Origin)> {
    let (word, rest) = split(text);
    let (count, slot) = split(rest);
    match word.as_bytes() {
        b"length" => Ok((Length::Is(read_number(count)?), read_slot(slot)?)),
        b"above" => Ok((Length::Above(read_number(count)?), read_slot(slot)?)),
        _ => Ok((Length::Plain, read_slot(word)?)),
    }
}
