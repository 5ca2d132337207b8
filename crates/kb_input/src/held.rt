//! What is seen in a picture, put into an input.
ghost use Rattle.std.specs.Prelude.{◌≡◌, length, fold, slice_set, IfOk, OnOk};
ghost use Rattle.kb_heap.specs.Heap.{with_value};
ghost use Rattle.kb_input.specs.Emitted.{held_from, location_number_at, number_behind, seen_value, with_held, with_slot};

use crate::NoMemory;
use crate::objects::has_own;
use kb_heap::{Heap, Input, Value};
use kb_picture::{Origin, PicLoc, Picture, Seen, Standing};
use kb_rows::Row;

/// Puts into each slot that was read what is seen there, where the objects of the picture have their own numbers, and behind
/// them stand those that are none of the picture's, in the order of reading.
pub(crate) fn put_seen(input: &mut Input, picture: &Picture, values: &[i32]) -> Result<(), NoMemory>
    ensures { OnOk result (input.new ≡ fold with_held input.old (held_from picture.now values.now (length picture.now.objects) picture.now.seen)) }
{
    let Ok(objects) = u32::try_from(picture.objects.as_slice().len()) else {
        return Err(NoMemory);
    };
    let mut own = objects;
    let mut rest = picture.seen.as_slice();
    while let [slot, others @ ..] = rest {
        let value = seen_value(picture, values, own, slot.1);
        put(input, slot.0, value);
        own = number_behind(picture, own, slot.1)?;
        rest = others;
    }
    Ok(())
}

// The number of the next object that is none of the picture's, behind a slot that is seen so.
fn number_behind(picture: &Picture, own: u32, seen: Seen) -> Result<u32, NoMemory>
    ensures { IfOk result (λ number. number ≡ number_behind picture.now own seen) }
{
    if !has_own(picture, seen) {
        return Ok(own);
    }
    match own.checked_add(1) {
        Some(next) => Ok(next),
        None => Err(NoMemory),
    }
}

// What a slot that is seen so holds, where its own object, if it has one, has that number.
fn seen_value(picture: &Picture, values: &[i32], own: u32, seen: Seen) -> Value
    ensures { result ≡ seen_value picture.now values.now own seen }
{
    match seen {
        Seen::Int(number) => match values.get(number as usize) {
            Some(value) => Value::Int(*value),
            None => Value::Int(0),
        },
        Seen::Null => Value::Null,
        Seen::Loc(number) => Value::Ref(location_number(picture.locs.as_slice(), own, number)),
        Seen::Obj(number) => Value::Ref(number),
        Seen::Beyond => Value::Ref(own),
    }
}

// The number of the object that a location is: one of the picture's, or its own.
fn location_number(locs: &[PicLoc], own: u32, number: u32) -> u32
    ensures { result ≡ location_number_at locs.now own number }
{
    let Some(loc) = locs.get(number as usize) else {
        return own;
    };
    match loc.standing {
        Standing::Obj(object) => object,
        Standing::Open | Standing::Beyond => own,
    }
}

// ---- slots

fn put(input: &mut Input, slot: Origin, value: Value)
    ensures { input.new ≡ with_slot input.old slot value }
{
    match slot {
        Origin::Arg(number) => put_argument(&mut input.args, number, value),
        Origin::Field(object, slot) => put_value(&mut input.heap, object, slot, value),
        Origin::Element(array, index) => put_value(&mut input.heap, array, index, value),
    }
}

#[tactic(auto, using(std::proofs::lemmas::List::set_past))]
fn put_argument(args: &mut Row<Value>, number: u32, value: Value)
    ensures { args.new ≡ slice_set args.old number value }
{
    if number as usize >= args.as_slice().len() {
        return;
    }
    args.set(number as usize, value);
}

#[tactic(auto, using(kb_picture::proofs::WriteLaws::nothing_written))]
fn put_value(heap: &mut Heap, object: u32, slot: u32, value: Value)
    ensures { heap.new ≡ with_value heap.old object slot value }
{
    if heap.find(object, slot).is_none() {
        return;
    }
    heap.put(object, slot, value);
}
