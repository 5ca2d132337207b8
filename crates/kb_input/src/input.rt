//! From a picture and the values of its variables to an input.
ghost use Rattle.std.specs.Prelude.{◌≡◌, IfOk};
ghost use Rattle.kb_input.specs.Emitted.{emitted_input, unread_input};

use crate::NoMemory;
use crate::arguments::argument_types;
use crate::held::put_seen;
use crate::objects::unread_objects;
use kb_class::MethodId;
use kb_heap::{Heap, Input};
use kb_lookups::default_values;
use kb_picture::Picture;
use kb_world::World;
use std::alloc::Global;

/// The input that a path carries with that picture, for the parameters of the method and for values of the picture's variables.
///
/// Its first objects are those of the picture, by their numbers. Then each location that is open or beyond, and each slot that
/// is beyond, has an object of its own, in the order of reading: of the first exact type of the universe that fits, an array
/// without elements. An array that is longer than n has n + 1 elements. Slots that were not read hold 0 or null, and the slot
/// of a variable its value; a variable without one has 0.
///
/// It takes time in proportion to the picture and the slots of its objects; the first exact type that fits a declared type is
/// found once. Where there are more objects than 32 bits number, that counts as out of memory.
#[tactic(auto, unfolding(crate::specs::Emitted::emitted_input))]
pub fn input_of(
    alloc: Global,
    world: &World,
    target: MethodId,
    picture: &Picture,
    values: &[i32],
) -> Result<Input, NoMemory>
    ensures { IfOk result (λ input. input ≡ emitted_input world.now target picture.now values.now) }
{
    let mut input = unread_input(alloc, world, target, picture)?;
    put_seen(&mut input, picture, values)?;
    Ok(input)
}

// The input in which nothing was read.
fn unread_input(
    alloc: Global,
    world: &World,
    target: MethodId,
    picture: &Picture,
) -> Result<Input, NoMemory>
    ensures { IfOk result (λ input. input ≡ unread_input world.now target picture.now) }
{
    let types = argument_types(alloc, world, target)?;
    let objects = unread_objects(alloc, world, target, types.as_slice(), picture)?;
    let args = default_values(alloc, types.as_slice())?;
    Ok(Input {
        heap: Heap { objects },
        args,
    })
}
